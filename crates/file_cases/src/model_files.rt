// Model files that read, and each way in which one does not.
use crate::verdicts::{MODEL, cut_anywhere};
use reader::{ReadFault, Reader, read_model_file};
use records::{Record, branch_at};
use std::process::Abort;
use std::test::Fail;

// These two name the reading once, as those of hand_ins.rt do.
fn reads(rt: &impl Abort, bytes: &[u8]) {
    assert_eq!(rt; read_model_file(bytes), Ok(()));
}

fn refused(rt: &impl Abort, bytes: &[u8], fault: ReadFault) {
    assert_eq!(rt; read_model_file(bytes), Err(fault));
}

#[test]
fn every_cut(rt: HostRuntime) {
    let read = |front: &[u8]| read_model_file(front);
    cut_anywhere(&rt, read, MODEL, &[0, 6, 11, 23, 31, 36]);
}

#[test]
fn without_ranges(rt: HostRuntime) {
    reads(&rt, b"MD\x00\x00\x00\x04ZZ");
    reads(&rt, b"MD\x00\x00\x00\x00ZZ");
    reads(&rt, b"MD\x00\x01\x00\x00ST\x01\x00\x00ZZ");
    // No targets, and a weight above the denominator.
    reads(&rt, b"MD\x00\x01\x00\x04ST\x00\x00\x01CH\x00\x00ZZ");
    reads(
        &rt,
        b"MD\x00\x01\x00\x04ST\x00\x00\x01CH\x00\x01\x00\x00\xff\xffZZ",
    );
    // Many states and choices that are not there.
    refused(
        &rt,
        b"MD\xff\xff\x00\x04ST\x00\x00\x00ZZ",
        ReadFault::BadMark(11),
    );
    refused(
        &rt,
        b"MD\x00\x01\x00\x04ST\x00\xff\xffZZ",
        ReadFault::BadMark(11),
    );
    refused(&rt, b"MD\xff\xff\x00\x04", ReadFault::Ends(6));
}

#[test]
fn marks(rt: HostRuntime) {
    refused(&rt, b"HD\x05\x00ZZ", ReadFault::BadMark(0));
    refused(&rt, b"ST\x00\x00\x00", ReadFault::BadMark(0));
    refused(&rt, b"M", ReadFault::Ends(0));
    refused(&rt, b"MD\x00\x01\x00\x01ZZ", ReadFault::BadMark(6));
    refused(&rt, b"MD\x00\x00\x00\x01ST", ReadFault::BadMark(6));
    refused(&rt, b"MD\x00\x01\x00\x01MD", ReadFault::BadMark(6));
    refused(
        &rt,
        b"MD\x00\x01\x00\x01ST\x00\x00\x00CH\x00\x00ZZ",
        ReadFault::BadMark(11),
    );
    refused(
        &rt,
        b"MD\x00\x01\x00\x01ST\x00\x00\x01ZZ",
        ReadFault::BadMark(11),
    );
    refused(
        &rt,
        b"MD\x00\x02\x00\x01ST\x00\x00\x01ST\x00\x00\x00ZZ",
        ReadFault::BadMark(11),
    );
}

#[test]
fn fields(rt: HostRuntime) {
    refused(
        &rt,
        b"MD\x00\x01\x00\x01ST\x02\x00\x00ZZ",
        ReadFault::BadField(6),
    );
    refused(&rt, b"MD\x00\x01\x00\x01ST\x02\x00", ReadFault::Ends(6));
    // A target not below n, a weight of 0, targets that repeat or fall.
    refused(
        &rt,
        b"MD\x00\x01\x00\x01ST\x00\x00\x01CH\x00\x01\x00\x01\x00\x01ZZ",
        ReadFault::BadField(11),
    );
    refused(
        &rt,
        b"MD\x00\x01\x00\x01ST\x00\x00\x01CH\x00\x01\x00\x00\x00\x00ZZ",
        ReadFault::BadField(11),
    );
    refused(
        &rt,
        b"MD\x00\x02\x00\x01ST\x00\x00\x01CH\x00\x02\x00\x01\x00\x01\x00\x01\x00\x01",
        ReadFault::BadField(11),
    );
    refused(
        &rt,
        b"MD\x00\x02\x00\x01ST\x00\x00\x01CH\x00\x02\x00\x01\x00\x01\x00\x00\x00\x01",
        ReadFault::BadField(11),
    );
    refused(
        &rt,
        b"MD\x00\x02\x00\x01ST\x00\x00\x01CH\x00\x03\x00\x01\x00\x01\x00\x00\x00\x01",
        ReadFault::Ends(11),
    );
}

#[test]
fn surplus(rt: HostRuntime) {
    refused(&rt, b"MD\x00\x00\x00\x01ZZZ", ReadFault::Surplus(8));
    assert_eq!(rt;
        Reader::model_file(b"MD\x00\x00\x00\x01ZZMD", 0).finish(),
        Ok(8)
    );
}

// Record by record, with offsets and entries.
#[test]
fn records_with_their_offsets(rt: HostRuntime) -> Result<(), Fail> {
    let mut reader = Reader::model_file(MODEL, 0);
    let Some(
        (
            0,
            Record::Md {
                states: 2,
                denominator: 4,
            },
        ),
    ) = reader.next()?
    else {
        return Err(Fail::new("no MD"));
    };
    let Some(
        (
            6,
            Record::St {
                goal: 0,
                choices: 2,
            },
        ),
    ) = reader.next()?
    else {
        return Err(Fail::new("no ST"));
    };
    let Some((11, Record::Ch { entries })) = reader.next()? else {
        return Err(Fail::new("no CH"));
    };
    let Some(branch) = branch_at(entries, 1) else {
        return Err(Fail::new("no second branch"));
    };
    assert_eq!(rt; branch.target, 1);
    assert_eq!(rt; branch.weight, 1);
    assert!(rt; branch_at(entries, 2).is_none());
    assert_eq!(rt; reader.offset(), 23);
    Ok(())
}
