use crate::tests::{Told, bytes_of, call, counts};
use rf_base::Items;
use rf_outside::MemSource;
use std::alloc::Global;
use std::test::Fail;

/// A data packet to endpoint 2 with eight bytes.
const DATA: &[u8] = b"\x02\x00\x10\x00\x00\x00\xc0\x00\x00\x00\x00\x00\x00\x00\x00\x00";

/// The form over these bytes; the source cuts its reads by the list.
fn tell(alloc: Global, form: &str, bytes: &[u8], cuts: &[u64]) -> Result<Told, Fail> {
    let src = MemSource::new(
        bytes_of(alloc, bytes)?,
        counts(alloc, cuts)?,
        Items::new(alloc),
    );
    call(alloc, &[form], src, Items::new(alloc), Items::new(alloc))
}

/// A capture, what is shown of it, what check says, and the status of both.
type Row = (&'static [u8], &'static str, &'static str, u8);

const ROWS: [Row; 9] = [
    (
        DATA,
        "0 data vc 0 eob 0 eov 0 seq 0 dst 2 meta 0 time - bytes 8\npackets 1\n",
        "packets 1 canonical 1\n",
        0,
    ),
    (b"", "packets 0\n", "packets 0 canonical 0\n", 0),
    (
        b"\x02\x00\x0d\x00\x00\x00\xc0\x00\x01\x02\x03\x04\x05\xff\xff\xff",
        "0 data vc 0 eob 0 eov 0 seq 0 dst 2 meta 0 time - bytes 5\npackets 1\n",
        "packets 1 canonical 0\n",
        0,
    ),
    (
        b"\x02\x00\x07\x00\x00\x00\xc0\x00",
        "fault BadLength at 0\n",
        "fault BadLength at 0\n",
        7,
    ),
    (
        b"\x02\x00\x10\x00\x00\x00\xc0\x00\x00\x00\x00\x00\x00\x00\x00\x00\x02\x00\x08\x00\x00\x00\x60\x00",
        "0 data vc 0 eob 0 eov 0 seq 0 dst 2 meta 0 time - bytes 8\nfault ReservedType at 16\n",
        "fault ReservedType at 16\n",
        7,
    ),
    (
        b"\x01\x00\x28\x00\x00\x00\x20\x00\x02\x00\x00\x00\x10\x00\x00\x00\x10\x00\x00\x03\x00\x00\x00\x00\x30\x00\x00\x00\x00\x00\x00\x00\x00\x00\x00\x00\x00\x00\x00\x00",
        "0 status vc 0 eob 0 eov 0 seq 0 dst 1 meta 0 code OKAY src 2 cap 4096/16 got 48/3 info 0 buffer 0\npackets 1\n",
        "packets 1 canonical 1\n",
        0,
    ),
    (
        b"\x05\x00\x1c\x00\x00\x00\x80\x00\x07\x00\x20\x03\x01\x00\x00\x00\x10\x00\xf0\x04\x11\x00\x00\x00\x22\x00\x00\x00\x00\x00\x00\x00",
        "0 control vc 0 eob 0 eov 0 seq 0 dst 5 meta 0 req src 1 seq 3 ports 0>7 time - op BLOCK_WRITE status OKAY enables 15 addr 16 words 17 34\npackets 1\n",
        "packets 1 canonical 0\n",
        0,
    ),
    (
        b"\x05\x00\x20\x00\x00\x00\x80\x00\x07\x00\x20\x03\x01\x00\x00\x00\x10\x00\xf0\x04\x11\x00\x00\x00\x22\x00\x00\x00\x00\x00\x00\x00",
        "0 control vc 0 eob 0 eov 0 seq 0 dst 5 meta 0 req src 1 seq 3 ports 0>7 time - op BLOCK_WRITE status OKAY enables 15 addr 16 words 17 34\npackets 1\n",
        "packets 1 canonical 1\n",
        0,
    ),
    (
        b"\x00\x00\x28\x00\x00\x00\x00\x00\x01\x00\x01\x00\x00\x00\x00\x01\x01\x00\x00\x00\x00\x00\x00\x00\x01\x00\x00\x00\x00\x00\x00\x00\x00\x00\x00\x00\x00\x00\x00\x00",
        "fault BadManagement at 0\n",
        "fault BadManagement at 0\n",
        7,
    ),
];

#[test]
fn captures_are_listed_and_checked(rt: HostRuntime) -> Result<(), Fail> {
    for (bytes, listed, checked, status) in ROWS {
        for (form, text) in [("show", listed), ("check", checked)] {
            let told = tell(rt.alloc(), form, bytes, &[])?;
            assert_eq!(rt; told.status, status, "{form} {text}");
            assert_eq!(rt; told.out.kept(), text.as_bytes());
            assert_eq!(rt; told.books.list.len(), 0);
        }
    }
    Ok(())
}

#[test]
fn a_cut_changes_nothing(rt: HostRuntime) -> Result<(), Fail> {
    let (_, listed, checked, _) = ROWS[0];
    for cut in 1..16 {
        for (form, text) in [("show", listed), ("check", checked)] {
            let told = tell(rt.alloc(), form, DATA, &[cut])?;
            assert_eq!(rt; told.status, 0, "{form} {cut}");
            assert_eq!(rt; told.out.kept(), text.as_bytes());
        }
    }
    Ok(())
}

#[test]
fn a_packet_that_ends_early_is_a_fault(rt: HostRuntime) -> Result<(), Fail> {
    for form in ["show", "check"] {
        let told = tell(rt.alloc(), form, &DATA[..15], &[])?;
        assert_eq!(rt; told.status, 7);
        assert_eq!(rt; told.out.kept(), b"fault Truncated at 0\n".as_slice());
    }
    Ok(())
}

/// Two data packets, what is listed of them, and what check says.
fn two(alloc: Global) -> Result<(Vec<u8>, String), Fail> {
    let mut bytes = Vec::from_slice(alloc, DATA)?;
    bytes.extend_from_slice(DATA)?;
    let line = "data vc 0 eob 0 eov 0 seq 0 dst 2 meta 0 time - bytes 8";
    let listed = format!(in alloc; "0 {line}\n16 {line}\npackets 2\n")?;
    Ok((bytes, listed))
}

const TWO_CHECKED: &str = "packets 2 canonical 2\n";

#[test]
fn a_failing_read_leaves_a_first_part(rt: HostRuntime) -> Result<(), Fail> {
    let (bytes, listed) = two(rt.alloc())?;
    for (form, text) in [("show", listed.as_str()), ("check", TWO_CHECKED)] {
        for fail in 0..5 {
            let src = MemSource::new(
                bytes_of(rt.alloc(), bytes.as_slice())?,
                counts(rt.alloc(), &[16, 16])?,
                counts(rt.alloc(), &[fail])?,
            );
            let told = call(
                rt.alloc(),
                &[form],
                src,
                Items::new(rt.alloc()),
                Items::new(rt.alloc()),
            )?;
            // The third read finds the end.
            let reached = fail <= 2;
            let whole = told.out.kept() == text.as_bytes();
            assert_eq!(rt; told.status, if reached { 3 } else { 0 }, "{form} {fail}");
            assert_eq!(rt; whole, !reached, "{form} {fail}");
            assert!(rt; text.as_bytes().starts_with(told.out.kept()));
        }
    }
    Ok(())
}

#[test]
fn a_failing_write_leaves_a_first_part(rt: HostRuntime) -> Result<(), Fail> {
    let (bytes, listed) = two(rt.alloc())?;
    for (form, text) in [("show", listed.as_str()), ("check", TWO_CHECKED)] {
        for fail in 0..40 {
            let src = MemSource::new(
                bytes_of(rt.alloc(), bytes.as_slice())?,
                Items::new(rt.alloc()),
                Items::new(rt.alloc()),
            );
            let told = call(
                rt.alloc(),
                &[form],
                src,
                counts(rt.alloc(), &[5; 64])?,
                counts(rt.alloc(), &[fail])?,
            )?;
            let whole = told.out.kept() == text.as_bytes();
            assert_eq!(rt; told.status, if whole { 0 } else { 4 }, "{form} {fail}");
            assert!(rt; text.as_bytes().starts_with(told.out.kept()));
        }
    }
    Ok(())
}
