// What a row of the table holds.
use decimals::Decimal;
use reach::Values;

// The exact values; and the least and the largest of them as decimals, rounded to the safe side.
#[derive(Clone, Copy)]
pub struct Row {
    pub values: Values,
    pub low: Decimal,
    pub high: Decimal,
}
