// Tests of the retry sheet.
use crate::{refusal, values};
use inspection::inspect;
use mdp::Source;
use reach::exact_values;
use retry::{Numbers, Sheet, sheet_a};

// State 0 is not applied; state 3 is, after its one resend; 4, 5 and 6 are the ends.
#[test]
fn sheet_a_answers(rt: HostRuntime) {
    let a = sheet_a();
    assert_eq!(rt; a.choices(3), 2);
    assert_eq!(rt; a.weight(0, 0, 4), 7);
    assert_eq!(rt; a.weight(3, 1, 6), 9);
    assert!(rt; a.is_goal(6));
}

// At the last resend both losses end in giving up, and their weights add up.
#[test]
fn losses_add_up(rt: HostRuntime) {
    assert_eq!(rt; sheet_a().weight(2, 0, 5), 3);
}

#[test]
fn as_many_events_as_fit(rt: HostRuntime) {
    let most = Numbers {
        events: 126,
        resends: 0,
        denominator: 10,
        request: 1,
        receipt: 2,
    };
    assert!(rt; inspect(&Sheet::new(most).under_sink()).is_ok());
    let more = Numbers {
        events: 127,
        ..most
    };
    assert_eq!(rt;
        refusal(inspect(&Sheet::new(more).under_sink())),
        Some((b'K', 6, 0))
    );
}

#[test]
fn no_more_lost_than_there_is(rt: HostRuntime) {
    let lost = |request, receipt| {
        Sheet::new(Numbers {
            events: 1,
            resends: 1,
            denominator: 10,
            request,
            receipt,
        })
    };
    assert_eq!(rt; lost(4, 6).denominator(), 10);
    assert_eq!(rt; lost(5, 6).denominator(), 0);
    assert_eq!(rt; lost(1 << 31, 1 << 31).denominator(), 0);
}

#[test]
fn chances_of_sheet_a(rt: HostRuntime) {
    let source = sheet_a().under_sink();
    assert_eq!(rt; exact_values(&source, 0, 2), Ok(values(0, 18, 100)));
    assert_eq!(rt; exact_values(&source, 6, 2), Ok(values(100, 100, 100)));
    assert_eq!(rt;
        exact_values(&source, 0, 18),
        Ok(values(0, 180000000000000000, 1000000000000000000))
    );
}
