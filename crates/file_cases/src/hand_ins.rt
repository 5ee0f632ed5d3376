// Hand-ins that read, and each way in which one does not.
use crate::verdicts::cut_anywhere;
use reader::{ReadFault, Reader, read_hand_in};
use refusals::Refusal;
use std::process::Abort;

const CEILINGS: &[u8] = b"HD\x01\x00CE\x00\x00\x00\x10\x00\x00CE\x00\x01\x00\x00\x00\x05ZZ";

const FLOORS: &[u8] = b"HD\x02\x01FL\x00\x00\x00\x04\x00\x00FL\x01\x00\x00\x10\x00\x00ZZ";

const CLASSES: &[u8] =
    b"HD\x03\x00PC\x00\x00\x00PC\x00\x01\x01PM\x00\x00\x00\x00\x00\x01PM\x00\x00\x00\x01\x00\x00ZZ";

const RELATION: &[u8] =
    b"HD\x04\x00RW\x00\x00\x00\x00\x00\x00\x00\x00\x00\x06WF\x00\x00\x01\x00\x00\x00\x02\x00\x02\x00\x01\x01\x00\x01\x00\x01\x02\x00\x03ZZ";

const CARRY: &[u8] = b"HD\x05\x00ZZ";

// These three name the reading once for all that stands below; at a hundred calls its name would only be noise.
fn reads(rt: &impl Abort, bytes: &[u8]) {
    assert_eq!(rt; read_hand_in(bytes), Ok(()));
}

fn refused(rt: &impl Abort, bytes: &[u8], fault: ReadFault) {
    assert_eq!(rt; read_hand_in(bytes), Err(fault));
}

// In a closure, since a function of another crate is not passed by its name.
fn cut(rt: &impl Abort, bytes: &[u8], starts: &[usize]) {
    cut_anywhere(rt, |front: &[u8]| read_hand_in(front), bytes, starts);
}

#[test]
fn every_cut(rt: HostRuntime) {
    cut(&rt, CEILINGS, &[0, 4, 12, 20]);
    cut(&rt, FLOORS, &[0, 4, 12, 20]);
    cut(&rt, CLASSES, &[0, 4, 9, 14, 22, 30]);
    cut(&rt, RELATION, &[0, 4, 16, 37]);
    cut(&rt, CARRY, &[0, 4]);
}

#[test]
fn empty_blocks(rt: HostRuntime) {
    reads(&rt, b"HD\x01\x01ZZ");
    reads(&rt, b"HD\x02\x00ZZ");
    reads(&rt, b"HD\x03\x00ZZ");
    reads(&rt, b"HD\x03\x00PM\x00\x00\x00\x00\x00\x00ZZ");
    reads(&rt, b"HD\x04\x00WF\x00\x00\x00\x00\x00\x00\x00\x00\x00ZZ");
    // The order begins again with the second block.
    reads(&rt, b"HD\x03\x00PC\x00\x09\x00PM\x00\x00\x00\x00\x00\x00ZZ");
}

#[test]
fn heads(rt: HostRuntime) {
    refused(&rt, b"HD\x00\x00ZZ", ReadFault::BadField(0));
    refused(&rt, b"HD\x06\x00ZZ", ReadFault::BadField(0));
    refused(&rt, b"HD\x01\x02ZZ", ReadFault::BadField(0));
    refused(&rt, b"HD\x03\x01ZZ", ReadFault::BadField(0));
    refused(&rt, b"HD\x04\x01ZZ", ReadFault::BadField(0));
    refused(&rt, b"HD\x05\x01ZZ", ReadFault::BadField(0));
    refused(&rt, b"MD\x00\x00\x00\x00ZZ", ReadFault::BadMark(0));
    refused(&rt, b"HDH", ReadFault::Ends(0));
    refused(&rt, b"hd\x01\x00ZZ", ReadFault::BadMark(0));
}

#[test]
fn marks(rt: HostRuntime) {
    // One letter is no mark yet, whatever it is; two that are wrong go before a record that is cut.
    refused(&rt, b"HD\x01\x00C", ReadFault::Ends(4));
    refused(&rt, b"HD\x01\x00X", ReadFault::Ends(4));
    refused(&rt, b"HD\x01\x00XX", ReadFault::BadMark(4));
    refused(&rt, b"HD\x01\x00FL", ReadFault::BadMark(4));
    refused(&rt, b"HD\x01\x00HD", ReadFault::BadMark(4));
    refused(&rt, b"HD\x05\x00CE", ReadFault::BadMark(4));
    refused(&rt, b"HD\x03\x00RW", ReadFault::BadMark(4));
    // PC after PM, RW after WF.
    refused(
        &rt,
        b"HD\x03\x00PM\x00\x00\x00\x00\x00\x00PC\x00\x00\x00ZZ",
        ReadFault::BadMark(12),
    );
    refused(
        &rt,
        b"HD\x04\x00WF\x00\x00\x00\x00\x00\x00\x00\x00\x00RW\x00\x00\x00\x00\x00\x00\x00\x00\x00\x00ZZ",
        ReadFault::BadMark(15),
    );
    refused(&rt, b"HD\x01\x00ST", ReadFault::BadMark(4));
}

#[test]
fn fields(rt: HostRuntime) {
    reads(&rt, b"HD\x01\x00CE\x00\x00\x00\x10\x00\x00ZZ");
    refused(
        &rt,
        b"HD\x01\x00CE\x00\x00\x00\x10\x00\x01ZZ",
        ReadFault::BadField(4),
    );
    refused(
        &rt,
        b"HD\x02\x00FL\x00\x00\x00\x10\x00\x01ZZ",
        ReadFault::BadField(4),
    );
    // A bad field in a record that is cut: the bytes end first.
    refused(&rt, b"HD\x01\x00CE\x00\x00\xff\xff\xff", ReadFault::Ends(4));
    refused(&rt, b"HD\x09", ReadFault::Ends(0));
}

#[test]
fn orders(rt: HostRuntime) {
    refused(
        &rt,
        b"HD\x01\x00CE\x00\x01\x00\x00\x00\x00CE\x00\x01\x00\x00\x00\x00ZZ",
        ReadFault::BadField(12),
    );
    refused(
        &rt,
        b"HD\x02\x00FL\x00\x01\x00\x00\x00\x00FL\x00\x00\x00\x00\x00\x00ZZ",
        ReadFault::BadField(12),
    );
    refused(
        &rt,
        b"HD\x03\x00PC\x00\x01\x00PC\x00\x01\x01ZZ",
        ReadFault::BadField(9),
    );
    refused(
        &rt,
        b"HD\x03\x00PM\x00\x01\x00\x01\x00\x00PM\x00\x01\x00\x01\x00\x01ZZ",
        ReadFault::BadField(12),
    );
    refused(
        &rt,
        b"HD\x03\x00PM\x00\x01\x00\x01\x00\x00PM\x00\x01\x00\x00\x00\x00ZZ",
        ReadFault::BadField(12),
    );
    reads(
        &rt,
        b"HD\x03\x00PM\x00\x01\x00\x01\x00\x00PM\x00\x02\x00\x00\x00\x00ZZ",
    );
    refused(
        &rt,
        b"HD\x04\x00RW\x00\x01\x00\x00\x00\x00\x00\x00\x00\x00RW\x00\x01\x00\x00\x00\x00\x00\x00\x00\x01ZZ",
        ReadFault::BadField(16),
    );
    refused(
        &rt,
        b"HD\x04\x00WF\x00\x01\x01\x00\x01\x00\x00\x00\x00WF\x00\x01\x00\x00\x02\x00\x00\x00\x00ZZ",
        ReadFault::BadField(15),
    );
    reads(
        &rt,
        b"HD\x04\x00WF\x00\x01\x01\x00\x01\x00\x00\x00\x00WF\x00\x01\x02\x00\x00\x00\x00\x00\x00ZZ",
    );
}

#[test]
fn entries(rt: HostRuntime) {
    refused(
        &rt,
        b"HD\x04\x00WF\x00\x00\x00\x00\x00\x00\x00\x00\x01\x00\x00\x00\x00\x00ZZ",
        ReadFault::BadField(4),
    );
    // The same pair twice, and a high target that falls.
    refused(
        &rt,
        b"HD\x04\x00WF\x00\x00\x00\x00\x00\x00\x00\x00\x02\x00\x01\x01\x00\x01\x00\x01\x01\x00\x01ZZ",
        ReadFault::BadField(4),
    );
    refused(
        &rt,
        b"HD\x04\x00WF\x00\x00\x00\x00\x00\x00\x00\x00\x02\x00\x01\x02\x00\x01\x00\x01\x01\x00\x01ZZ",
        ReadFault::BadField(4),
    );
    reads(
        &rt,
        b"HD\x04\x00WF\x00\x00\x00\x00\x00\x00\x00\x00\x02\x00\x01\x02\x00\x01\x00\x02\x01\x00\x01ZZ",
    );
    // The count says more entries than there are bytes.
    refused(
        &rt,
        b"HD\x04\x00WF\x00\x00\x00\x00\x00\x00\x00\xff\xff\x00\x00\x00\x00\x01ZZ",
        ReadFault::Ends(4),
    );
}

#[test]
fn surplus(rt: HostRuntime) {
    refused(&rt, b"HD\x05\x00ZZ!", ReadFault::Surplus(6));
    refused(&rt, b"HD\x05\x00ZZHD\x05\x00ZZ", ReadFault::Surplus(6));
    assert_eq!(rt; ReadFault::Surplus(6).number(), 4);
    assert_eq!(rt; ReadFault::Surplus(6).place(), 6);
}

// A reader stops behind ZZ, and the next unit goes on from there.
#[test]
fn unit_after_unit(rt: HostRuntime) {
    let both = b"HD\x05\x00ZZHD\x01\x00ZZCE";
    assert_eq!(rt; Reader::hand_in(both, 0).finish(), Ok(6));
    assert_eq!(rt; Reader::hand_in(both, 6).finish(), Ok(12));
    assert_eq!(rt;
        Reader::hand_in(both, 12).finish(),
        Err(ReadFault::BadMark(12))
    );
    assert_eq!(rt;
        Reader::hand_in(both, 14).finish(),
        Err(ReadFault::Ends(14))
    );
    assert_eq!(rt;
        Reader::hand_in(both, 99).finish(),
        Err(ReadFault::Ends(99))
    );
}
