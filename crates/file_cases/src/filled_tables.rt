// Tables filled from model files, and the models that they answer for.
use crate::verdicts::MODEL;
use filling::{FillFault, Tables, fill};
use inspection::{Fault, inspect};
use mdp::Source;
use reader::ReadFault;
use records::Branch;
use refusals::Refusal;
use sink::Sink;
use std::process::Abort;
use std::test::Fail;
use tables::{ChoiceRow, StateRow, Table};

// Rows that no file gives, to see what is left of them.
fn state_row() -> StateRow {
    StateRow {
        goal: true,
        first: 99,
        choices: 99,
    }
}

fn choice_row() -> ChoiceRow {
    ChoiceRow {
        first: 99,
        branches: 99,
    }
}

fn branch() -> Branch {
    Branch {
        target: 99,
        weight: 99,
    }
}

// Each table has a row more than the file needs.
#[test]
fn filled(rt: HostRuntime) -> Result<(), Fail> {
    let mut states = [state_row(); 3];
    let mut choices = [choice_row(); 3];
    let mut branches = [branch(); 4];
    let mut tables = Tables {
        states: &mut states,
        choices: &mut choices,
        branches: &mut branches,
    };
    let filled = tables.fill(MODEL)?;
    assert_eq!(rt; filled.states, 2);
    assert_eq!(rt; filled.choices, 2);
    assert_eq!(rt; filled.branches, 3);
    assert_eq!(rt; states[2].first, 99);
    assert_eq!(rt; choices[2].first, 99);
    assert_eq!(rt; branches[3].target, 99);
    let table = Table::over(&states, &choices, &branches, filled);
    assert_eq!(rt; table.states(), 2);
    assert_eq!(rt; table.denominator(), 4);
    assert!(rt; !table.is_goal(0) && table.is_goal(1) && !table.is_goal(2));
    assert!(rt; table.choices(0) == 2 && table.choices(1) == 0 && table.choices(2) == 0);
    assert!(rt; table.weight(0, 0, 0) == 3 && table.weight(0, 0, 1) == 1);
    assert!(rt; table.weight(0, 1, 0) == 0 && table.weight(0, 1, 1) == 4);
    assert!(rt;
        table.weight(0, 2, 1) == 0 && table.weight(1, 0, 0) == 0 && table.weight(0, 0, 2) == 0
    );
    Ok(())
}

// The goal has no choice, so the table alone is not sound; under the sink layer it is.
#[test]
fn opened_under_the_sink(rt: HostRuntime) -> Result<(), Fail> {
    let mut states = [state_row(); 2];
    let mut choices = [choice_row(); 2];
    let mut branches = [branch(); 3];
    let filled = fill(MODEL, &mut states, &mut choices, &mut branches)?;
    let table = Table::over(&states, &choices, &branches, filled);
    let Err(unsound) = inspect(&table) else {
        return Err(Fail::new("sound without the sink"));
    };
    assert_eq!(rt; unsound.letter, b'T');
    assert_eq!(rt; unsound.fault, Fault::Choices(1));
    assert!(rt; inspect(&Sink::new(table)).is_ok());
    Ok(())
}

// Filling tables of these sizes is refused so, and leaves every row.
fn refused(rt: &impl Abort, bytes: &[u8], sizes: (usize, usize, usize), fault: FillFault) {
    let mut states = [state_row(); 3];
    let mut choices = [choice_row(); 3];
    let mut branches = [branch(); 4];
    assert!(rt; sizes.0 <= 3 && sizes.1 <= 3 && sizes.2 <= 4);
    let mut tables = Tables {
        states: &mut states[0..sizes.0],
        choices: &mut choices[0..sizes.1],
        branches: &mut branches[0..sizes.2],
    };
    assert_eq!(rt; tables.fill(bytes).err(), Some(fault));
    for row in states {
        assert_eq!(rt; row.first, 99);
    }
    for row in choices {
        assert_eq!(rt; row.first, 99);
    }
    for row in branches {
        assert_eq!(rt; row.target, 99);
    }
}

#[test]
fn one_row_too_few(rt: HostRuntime) {
    refused(&rt, MODEL, (1, 2, 3), FillFault::NoRoom);
    refused(&rt, MODEL, (2, 1, 3), FillFault::NoRoom);
    refused(&rt, MODEL, (2, 2, 2), FillFault::NoRoom);
    refused(&rt, MODEL, (0, 0, 0), FillFault::NoRoom);
    assert_eq!(rt; FillFault::NoRoom.number(), 5);
    assert_eq!(rt; FillFault::NoRoom.place(), 0);
}

// What does not read is refused for that, however small the tables are.
fn unread(
    rt: &impl Abort,
    bytes: &[u8],
    sizes: (usize, usize, usize),
    fault: ReadFault,
    number: u32,
    place: usize,
) {
    let fault = FillFault::Reading(fault);
    refused(rt, bytes, sizes, fault);
    assert_eq!(rt; fault.number(), number);
    assert_eq!(rt; fault.place(), place);
}

#[test]
fn reading_comes_first(rt: HostRuntime) {
    unread(
        &rt,
        b"MD\x00\x02\x00\x04ST\x00\x00\x02CH",
        (0, 0, 0),
        ReadFault::Ends(11),
        1,
        11,
    );
    unread(&rt, b"HD\x05\x00ZZ", (3, 3, 4), ReadFault::BadMark(0), 2, 0);
    unread(
        &rt,
        b"MD\x00\x01\x00\x01ST\x02\x00\x00ZZ",
        (0, 0, 0),
        ReadFault::BadField(6),
        3,
        6,
    );
    unread(
        &rt,
        b"MD\x00\x00\x00\x01ZZ!",
        (3, 3, 4),
        ReadFault::Surplus(8),
        4,
        8,
    );
}

// No states, no denominator, a choice without targets: they read, and an opening refuses them by 6 or 8.
#[test]
fn little_models(rt: HostRuntime) -> Result<(), Fail> {
    let mut states = [state_row(); 1];
    let mut choices = [choice_row(); 1];
    let mut branches = [branch(); 1];
    let mut tables = Tables {
        states: &mut states,
        choices: &mut choices,
        branches: &mut branches,
    };
    let none = tables.fill(b"MD\x00\x00\x00\x04ZZ")?;
    let table = Table::over(&states, &choices, &branches, none);
    assert!(rt; table.states() == 0 && !table.is_goal(0) && table.choices(0) == 0);
    assert!(rt; inspect(&table).is_err());
    let file = b"MD\x00\x01\x00\x04ST\x00\x00\x01CH\x00\x00ZZ";
    let mut tables = Tables {
        states: &mut states,
        choices: &mut choices,
        branches: &mut branches,
    };
    let empty = tables.fill(file)?;
    let table = Table::over(&states, &choices, &branches, empty);
    let Err(unsound) = inspect(&table) else {
        return Err(Fail::new("sound without weights"));
    };
    assert_eq!(rt; unsound.fault, Fault::Weights(0));
    Ok(())
}
