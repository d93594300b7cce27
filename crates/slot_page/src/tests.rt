use crate::Page;
use std::test::Fail;

const ROW: [u8; 8] = [0, 0, 0, 7, 0x61, 0x62, 0x20, 0x20];

#[test]
fn counts_slots(rt: HostRuntime) {
    for (length, slots) in [(8, 223), (359, 5), (800, 2), (1, 255)] {
        let page = Page::format(100, length);
        assert_eq!(rt; page.slots(), slots, "rows of {length}");
        assert_eq!(rt; page.row_length(), length);
        assert_eq!(rt; page.owner(), 100);
    }
}

#[test]
fn spells_a_row(rt: HostRuntime) {
    let mut page = Page::format(100, 8);
    page.assign(1, Some(&ROW));
    let mut bytes = [0; 2048];
    page.to_bytes(&mut bytes);
    let front = [
        0, 0, 0, 0x64, 0, 8, 0xdf, 0, 1, 0, 0, 0, 7, 0x61, 0x62, 0x20, 0x20,
    ];
    assert_eq!(rt; &bytes[..17], front.as_slice());
    assert!(rt; bytes[17..].iter().all(|b| *b == 0));
}

#[test]
fn reads_zeros(rt: HostRuntime) -> Result<(), Fail> {
    let page = Page::from_bytes(&[0; 2048]).ok_or("zeros are a page")?;
    assert_eq!(rt; page.owner(), 0);
    assert_eq!(rt; page.slots(), 0);
    let mut bytes = [1; 2048];
    Page::unowned().to_bytes(&mut bytes);
    assert!(rt; bytes.iter().all(|b| *b == 0));
    Ok(())
}

#[test]
fn refuses_what_is_no_page(rt: HostRuntime) {
    let mut whole = [0; 2048];
    Page::format(100, 8).to_bytes(&mut whole);
    assert!(rt; Page::from_bytes(&whole).is_some());
    for (at, byte) in [
        (2047, 1), // behind the slots
        (2015, 1), // behind the last of 223 slots of 9 bytes
        (3, 2), // owner 2
        (3, 99), // owner 99
        (3, 0), // no owner
        (6, 222), // other counts of slots
        (6, 224),
        (7, 1), // not zero
        (9, 1), // a byte in an empty slot
        (8, 2), // neither empty nor a row
        (5, 0), // rows of no length
        (4, 4), // rows of 1032 bytes
    ] {
        let mut bytes = whole;
        assert!(rt; at < 2048);
        bytes[at] = byte;
        assert!(rt; Page::from_bytes(&bytes).is_none(), "byte {at} as {byte}");
    }
}

#[test]
fn assigns_and_empties(rt: HostRuntime) -> Result<(), Fail> {
    let mut page = Page::format(1, 8);
    page.assign(223, Some(&ROW));
    page.assign(2, Some(&ROW));
    let row = page.get(2).ok_or("a row stands in slot 2")?;
    assert_eq!(rt; row, ROW.as_slice());
    assert!(rt; page.get(1).is_none());
    page.assign(2, None);
    assert!(rt; page.get(2).is_none());
    let mut bytes = [0; 2048];
    page.to_bytes(&mut bytes);
    let again = Page::from_bytes(&bytes).ok_or("what was written is a page")?;
    assert_eq!(rt; again.slots(), 223);
    let last = again.get(223).ok_or("a row stands in the last slot")?;
    assert_eq!(rt; last, ROW.as_slice());
    assert!(rt; again.get(2).is_none());
    Ok(())
}
