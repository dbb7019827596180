use crate::tests::{Told, bytes_of, call, counts};
use rf_base::Items;
use rf_outside::MemSource;
use std::alloc::Global;
use std::test::Fail;

/// A file of one frame: a datagram of 16 bytes from port 49153 to port 50000.
const FILE: &[u8] =
    b"\xd4\xc3\xb2\xa1\x02\x00\x04\x00\x00\x00\x00\x00\x00\x00\x00\x00\x00\x00\x04\x00\x01\x00\x00\x00\
\x00\x00\x00\x00\x00\x00\x00\x00\x3a\x00\x00\x00\x3a\x00\x00\x00\
\x02\x00\x00\x00\x00\x02\x02\x00\x00\x00\x00\x01\x08\x00\
\x45\x00\x00\x2c\x00\x00\x40\x00\x40\x11\x00\x00\x0a\x00\x00\x01\x0a\x00\x00\x02\
\xc0\x01\xc3\x50\x00\x18\x00\x00\
\x02\x00\x10\x00\x00\x00\xc0\x00\x00\x00\x00\x00\x00\x00\x00\x00";

const LISTED: &[u8] = b"record 0 49153>50000 bytes 16\n\
0 data vc 0 eob 0 eov 0 seq 0 dst 2 meta 0 time - bytes 8\n\
records 1 datagrams 1 cut 0 packets 1 faults 0\n";

/// A packet of a reserved type behind the first one.
const FAULTY: &[u8] = b"record 0 49153>50000 bytes 24\n\
0 data vc 0 eob 0 eov 0 seq 0 dst 2 meta 0 time - bytes 8\n\
fault ReservedType at 16\n\
records 1 datagrams 1 cut 0 packets 1 faults 1\n";

/// The file with more bytes of frame behind it, and these bytes changed.
fn changed(alloc: Global, more: &[u8], changes: &[(usize, u8)]) -> Result<Vec<u8>, Fail> {
    let mut bytes = Vec::from_slice(alloc, FILE)?;
    bytes.extend_from_slice(more)?;
    for (at, value) in changes {
        if let Some(byte) = bytes.get_mut(*at) {
            *byte = *value;
        }
    }
    Ok(bytes)
}

/// The listing for a port, whole or in pieces of one byte.
fn tell(alloc: Global, port: &str, bytes: &[u8], cuts: &[u64]) -> Result<Told, Fail> {
    let src = MemSource::new(
        bytes_of(alloc, bytes)?,
        counts(alloc, cuts)?,
        Items::new(alloc),
    );
    let none = Items::new(alloc);
    call(alloc, &["pcap", port], src, none, Items::new(alloc))
}

#[test]
fn pcap_files_are_listed(rt: HostRuntime) -> Result<(), Fail> {
    let padded = changed(rt.alloc(), &[0, 0], &[(32, 0x3c), (36, 0x3c)])?;
    let reserved = [2, 0, 8, 0, 0, 0, 96, 0];
    let grown = [(32, 0x42), (36, 0x42), (57, 0x34), (79, 0x20)];
    let faulty = changed(rt.alloc(), &reserved, &grown)?;
    let none: &[u8] = b"records 1 datagrams 0 cut 0 packets 0 faults 0\n";
    let rows: [(&str, &[u8], &[u8], u8); 8] = [
        ("49153", FILE, LISTED, 0),
        ("50000", FILE, LISTED, 0),
        ("50001", FILE, none, 0),
        ("49153", &FILE[..97], b"fault Truncated at 24\n", 7),
        ("49153", padded.as_slice(), LISTED, 0),
        (
            "49153",
            b"\x0a\x0d\x0d\x0a\x00\x00\x00\x00\x00\x00\x00\x00\x00\x00\x00\x00\x00\x00\x00\x00\x00\x00\x00\x00",
            b"fault BadMagic at 0\n",
            7,
        ),
        ("49153", b"", b"fault Truncated at 0\n", 7),
        ("49153", faulty.as_slice(), FAULTY, 7),
    ];
    for (port, bytes, listing, status) in rows {
        for cuts in [[1u64; 120].as_slice(), &[]] {
            let told = tell(rt.alloc(), port, bytes, cuts)?;
            assert_eq!(rt; told.out.kept(), listing);
            assert_eq!(rt; told.status, status);
            assert_eq!(rt; told.books.list.len(), 0);
        }
    }
    Ok(())
}

#[test]
fn a_port_is_digits_from_1_to_65535(rt: HostRuntime) -> Result<(), Fail> {
    for (port, status) in [
        ("1", 0),
        ("65535", 0),
        ("0", 2),
        ("01", 2),
        ("+1", 2),
        ("-1", 2),
        ("65536", 2),
        ("100000", 2),
        ("", 2),
        ("4915a", 2),
        (" 1", 2),
    ] {
        assert_eq!(rt; tell(rt.alloc(), port, FILE, &[])?.status, status, "{port}");
    }
    Ok(())
}
