// Hand-ins that are written, and records that no hand-in has there.
use reader::{ReadFault, read_hand_in};
use records::Record;
use refusals::Refusal;
use std::alloc::{AllocError, Global};
use std::process::Abort;
use std::test::Fail;
use writer::{RewriteFault, WriteFault, Writer, rewrite};

fn head(kind: u8, side: u8) -> Record<'static> {
    Record::Hd { kind, side }
}

fn ceiling(state: u16, claim: u32) -> Record<'static> {
    Record::Ce { state, claim }
}

fn floor(state: u16) -> Record<'static> {
    Record::Fl { state, claim: 0 }
}

fn class(state: u16) -> Record<'static> {
    Record::Pc { state, class: 0 }
}

fn matching(state: u16, choice: u16) -> Record<'static> {
    Record::Pm {
        state,
        choice,
        matched: 0,
    }
}

fn weights<'a>(state: u16, entries: &'a [u8]) -> Record<'a> {
    Record::Wf {
        state,
        high: 0,
        choice: 0,
        matched: 0,
        entries,
    }
}

fn state() -> Record<'static> {
    Record::St {
        goal: 0,
        choices: 0,
    }
}

fn end() -> Record<'static> {
    Record::Zz
}

#[test]
fn ceilings(rt: HostRuntime) {
    let mut buffer = [7u8; 24];
    let mut writer = Writer::new(&mut buffer);
    assert_eq!(rt; writer.put(head(1, 1)), Ok(()));
    assert_eq!(rt; writer.put(ceiling(3, 1048576)), Ok(()));
    assert!(rt; !writer.is_complete());
    assert_eq!(rt; writer.put(ceiling(700, 9)), Ok(()));
    assert_eq!(rt; writer.put(end()), Ok(()));
    assert!(rt; writer.is_complete());
    assert_eq!(rt; writer.len(), 22);
    assert!(rt;
        &buffer[0..24]
            == b"HD\x01\x01CE\x00\x03\x00\x10\x00\x00CE\x02\xbc\x00\x00\x00\x09ZZ\x07\x07".as_slice()
    );
    assert!(rt; read_hand_in(&buffer[0..22]).is_ok());
}

// What is refused changes nothing, and the writer goes on.
#[test]
fn refused_by_mark(rt: HostRuntime) {
    let mut buffer = [0u8; 40];
    let mut writer = Writer::new(&mut buffer);
    assert_eq!(rt; writer.put(ceiling(0, 0)), Err(WriteFault::BadMark(0)));
    assert_eq!(rt; writer.put(state()), Err(WriteFault::BadMark(0)));
    assert_eq!(rt; writer.put(end()), Err(WriteFault::BadMark(0)));
    assert_eq!(rt; writer.put(head(3, 0)), Ok(()));
    assert_eq!(rt; writer.put(head(3, 0)), Err(WriteFault::BadMark(4)));
    assert_eq!(rt; writer.put(floor(0)), Err(WriteFault::BadMark(4)));
    assert_eq!(rt; writer.put(class(5)), Ok(()));
    assert_eq!(rt; writer.put(matching(1, 1)), Ok(()));
    assert_eq!(rt; writer.put(class(6)), Err(WriteFault::BadMark(17)));
    assert_eq!(rt; writer.put(end()), Ok(()));
    assert_eq!(rt; writer.put(end()), Err(WriteFault::BadMark(19)));
    assert_eq!(rt; writer.len(), 19);
    assert!(rt;
        &buffer[0..20] == b"HD\x03\x00PC\x00\x05\x00PM\x00\x01\x00\x01\x00\x00ZZ\x00".as_slice()
    );
}

#[test]
fn refused_by_field(rt: HostRuntime) {
    let mut buffer = [0u8; 40];
    let mut writer = Writer::new(&mut buffer);
    assert_eq!(rt; writer.put(head(0, 0)), Err(WriteFault::BadField(0)));
    assert_eq!(rt; writer.put(head(4, 1)), Err(WriteFault::BadField(0)));
    assert_eq!(rt; writer.put(head(1, 0)), Ok(()));
    assert_eq!(rt;
        writer.put(ceiling(1, 1048577)),
        Err(WriteFault::BadField(4))
    );
    assert_eq!(rt; writer.put(ceiling(1, 1)), Ok(()));
    assert_eq!(rt; writer.put(ceiling(1, 1)), Err(WriteFault::BadField(12)));
    assert_eq!(rt; writer.put(ceiling(0, 1)), Err(WriteFault::BadField(12)));
    assert_eq!(rt; writer.put(ceiling(2, 1)), Ok(()));
}

// Entries that are cut, of no amount, and in no order.
#[test]
fn refused_by_entries(rt: HostRuntime) {
    let mut buffer = [0u8; 40];
    let mut writer = Writer::new(&mut buffer);
    assert_eq!(rt; writer.put(head(4, 0)), Ok(()));
    assert_eq!(rt;
        writer.put(weights(0, b"\x00\x00\x00\x00")),
        Err(WriteFault::BadField(4))
    );
    assert_eq!(rt;
        writer.put(weights(0, b"\x00\x00\x00\x00\x00")),
        Err(WriteFault::BadField(4))
    );
    assert_eq!(rt;
        writer.put(weights(0, b"\x00\x01\x00\x00\x01\x00\x00\x00\x00\x01")),
        Err(WriteFault::BadField(4))
    );
    assert_eq!(rt;
        writer.put(weights(0, b"\x00\x00\x00\x00\x01\x00\x01\x00\x00\x01")),
        Ok(())
    );
    assert_eq!(rt; writer.len(), 25);
}

// An entry of amount 1 for each target that two bytes can name, in order.
fn entry_for_each_target(heap: Global) -> Result<Vec<u8>, AllocError> {
    let mut entries = Vec::new(heap);
    for target in 0..=65535u16 {
        let [first, second] = target.to_be_bytes();
        entries.extend_from_slice(&[first, second, 0, 0, 1])?;
    }
    Ok(entries)
}

// 65,536 entries are one more than their count can say; with one less only the room is missing.
#[test]
fn refused_by_count(rt: HostRuntime) -> Result<(), Fail> {
    let all = entry_for_each_target(rt.alloc())?;
    let entries = all.as_slice();
    assert!(rt; entries.len() == 327680);
    let mut buffer = [0u8; 40];
    let mut writer = Writer::new(&mut buffer);
    assert_eq!(rt; writer.put(head(4, 0)), Ok(()));
    assert_eq!(rt;
        writer.put(weights(0, entries)),
        Err(WriteFault::BadField(4))
    );
    assert_eq!(rt;
        writer.put(weights(0, &entries[0..327675])),
        Err(WriteFault::NoRoom)
    );
    Ok(())
}

#[test]
fn no_room(rt: HostRuntime) {
    let mut buffer = [7u8; 11];
    let mut writer = Writer::new(&mut buffer);
    assert_eq!(rt; writer.put(head(1, 0)), Ok(()));
    // The order is asked before the room.
    assert_eq!(rt;
        writer.put(ceiling(0, 1048577)),
        Err(WriteFault::BadField(4))
    );
    assert_eq!(rt; writer.put(ceiling(0, 0)), Err(WriteFault::NoRoom));
    assert_eq!(rt; WriteFault::NoRoom.number(), 5);
    assert_eq!(rt; WriteFault::NoRoom.place(), 0);
    assert_eq!(rt; writer.put(end()), Ok(()));
    assert!(rt; &buffer[0..11] == b"HD\x01\x00ZZ\x07\x07\x07\x07\x07".as_slice());
}

fn written_again(rt: &impl Abort, bytes: &[u8]) {
    let mut buffer = [7u8; 64];
    assert_eq!(rt; rewrite(bytes, &mut buffer), Ok(bytes.len()));
    assert!(rt; bytes.len() < 64);
    assert!(rt; &buffer[0..bytes.len()] == bytes);
    assert_eq!(rt; buffer[bytes.len()], 7);
}

#[test]
fn written_as_it_was_read(rt: HostRuntime) {
    written_again(
        &rt,
        b"HD\x01\x00CE\x00\x00\x00\x10\x00\x00CE\x00\x01\x00\x00\x00\x05ZZ",
    );
    written_again(&rt, b"HD\x03\x00PC\x00\x00\x00PM\x00\x00\x00\x00\x00\x01ZZ");
    written_again(
        &rt,
        b"HD\x04\x00RW\x00\x00\x00\x00\x00\x00\x00\x00\x00\x06WF\x00\x00\x01\x00\x00\x00\x02\x00\x02\x00\x01\x01\x00\x01\x00\x01\x02\x00\x03ZZ",
    );
    written_again(&rt, b"HD\x05\x00ZZ");
}

#[test]
fn not_written_again(rt: HostRuntime) {
    let mut small = [7u8; 5];
    assert_eq!(rt;
        rewrite(b"HD\x05\x00ZZ", &mut small),
        Err(RewriteFault::Writing(WriteFault::NoRoom))
    );
    assert!(rt; &small[0..5] == b"\x07\x07\x07\x07\x07".as_slice());
    assert_eq!(rt;
        rewrite(b"HD\x05\x00CE", &mut small),
        Err(RewriteFault::Reading(ReadFault::BadMark(4)))
    );
    assert_eq!(rt; ReadFault::BadMark(4).number(), 2);
    assert!(rt; &small[0..5] == b"\x07\x07\x07\x07\x07".as_slice());
}
