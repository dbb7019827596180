ghost use Rattle.std.specs.Prelude.{◌≡◌};
ghost use Rattle.chdr_words.specs.Control.{FitsControl, FitsCtrlOp};
ghost use Rattle.block_registers.specs.Registers.{register, written_one, change};

use block_registers::{Bank, Banks, PlainBank, RegisterBank, RegisterSlots, operate_fixed};
use chdr_words::{Control, CtrlOp, CtrlStatus, Epid, Words15};
use rf_base::Items;
use std::alloc::Global;
use std::sync::Arc;
use std::sync::atomic::{AtomicU64, Ordering};
use std::test::Fail;

const ME: Epid = Epid(7);

/// A bank of another kind, which counts how often it is dropped.
struct Device {
    inner: PlainBank,
    drops: Arc<AtomicU64>,
}

impl Drop for Device {
    fn drop(self) {
        let Device { inner, drops } = self;
        drop(inner);
        drops.fetch_add(1, Ordering::SeqCst);
        drop(drops);
    }
}

impl RegisterBank for Device {
    ghost words = { λ device. device.inner.words };

    ghost masks = { λ device. device.inner.masks };

    fn len(&self) -> u32 {
        self.inner.len()
    }

    fn read(&self, addr: u32) -> Option<u32> {
        self.inner.read(addr)
    }

    fn write(&mut self, addr: u32, value: u32, enables: u8) -> bool {
        self.inner.write(addr, value, enables)
    }
}

fn plain(alloc: Global, words: &[u32], masks: &[u32]) -> Result<PlainBank, Fail> {
    let words = Items::from_vec(Vec::from_slice(alloc, words)?);
    let masks = Items::from_vec(Vec::from_slice(alloc, masks)?);
    if words.len() == masks.len() && words.len() < 100 {
        Ok(PlainBank::new(words, masks))
    } else {
        Ok(PlainBank::new(Items::new(alloc), Items::new(alloc)))
    }
}

/// Three words, of which the last two can be written.
fn three(alloc: Global) -> Result<PlainBank, Fail> {
    plain(alloc, &[10, 11, 12], &[0, u32::MAX, u32::MAX])
}

/// Slots with a bank behind port 2.
fn slots(alloc: Global, bank: Bank) -> Result<Banks, Fail> {
    let mut banks = Banks::new(alloc)?;
    banks.load(2, bank);
    Ok(banks)
}

/// A request to port 2.
fn request(op: CtrlOp, addr: u32, list: &[u32]) -> Control
    requires { FitsCtrlOp op }
    ensures { FitsControl result }
{
    Control {
        src: Epid(1),
        ack: false,
        time: Some(9),
        seq: 3,
        src_port: 0,
        dst_port: 2,
        status: CtrlStatus::Okay,
        op,
        enables: 15,
        addr: addr % 0x10_0000,
        words: words(list),
    }
}

/// What port 2 answers, and the three words afterwards.
fn operated(alloc: Global, request: &Control) -> Result<(Option<Words15>, [u32; 3]), Fail>
    requires { FitsControl request.now }
{
    let bank: Bank = Box::new(alloc, three(alloc)?)?;
    let mut banks = slots(alloc, bank)?;
    let ack = banks.operate(ME, Some(2), request);
    let answer = match ack.status {
        CtrlStatus::Okay => Some(ack.words),
        CtrlStatus::CmdErr | CtrlStatus::TsErr | CtrlStatus::Warning => None,
    };
    let mut words = [0; 3];
    if let Some(bank) = banks.unload(2) {
        for (k, word) in words.iter_mut().enumerate() {
            *word = bank.read(4 * (k as u32 % 3)).unwrap_or(0);
        }
    }
    Ok((answer, words))
}

#[test]
fn an_acknowledgement_goes_back_to_where_its_request_came_from(
    rt: HostRuntime,
) -> Result<(), Fail> {
    let bank: Bank = Box::new(rt.alloc(), three(rt.alloc())?)?;
    let mut banks = slots(rt.alloc(), bank)?;
    let ack = banks.operate(ME, Some(2), &request(CtrlOp::Read, 4, &[]));
    let mut want = request(CtrlOp::Read, 4, &[11]);
    want.src = ME;
    want.ack = true;
    want.time = None;
    want.src_port = 2;
    want.dst_port = 0;
    assert_eq!(rt; ack, want);
    Ok(())
}

#[test]
fn each_operation_answers_its_words_and_writes_its_own(rt: HostRuntime) -> Result<(), Fail> {
    let read = operated(rt.alloc(), &request(CtrlOp::Read, 8, &[]))?;
    assert_eq!(rt; read, (Some(words(&[12])), [10, 11, 12]));
    let write = operated(rt.alloc(), &request(CtrlOp::Write, 4, &[1, 2]))?;
    assert_eq!(rt; write, (Some(words(&[])), [10, 1, 12]));
    let masked = operated(rt.alloc(), &request(CtrlOp::Write, 0, &[1]))?;
    assert_eq!(rt; masked, (Some(words(&[])), [10, 11, 12]));
    let both = operated(rt.alloc(), &request(CtrlOp::ReadWrite, 4, &[1]))?;
    assert_eq!(rt; both, (Some(words(&[11])), [10, 1, 12]));
    let block = operated(rt.alloc(), &request(CtrlOp::BlockWrite, 4, &[1, 2]))?;
    assert_eq!(rt; block, (Some(words(&[])), [10, 1, 2]));
    let reads = operated(rt.alloc(), &request(CtrlOp::BlockRead, 4, &[1, 2]))?;
    assert_eq!(rt; reads, (Some(words(&[11, 12])), [10, 11, 12]));
    let sleep = operated(rt.alloc(), &request(CtrlOp::Sleep, 3, &[1]))?;
    assert_eq!(rt; sleep, (Some(words(&[])), [10, 11, 12]));
    Ok(())
}

#[test]
fn a_refused_request_changes_nothing(rt: HostRuntime) -> Result<(), Fail> {
    let cases = [
        (CtrlOp::Write, 4, 0),
        (CtrlOp::Write, 5, 1),
        (CtrlOp::Write, 12, 1),
        (CtrlOp::Read, 6, 0),
        (CtrlOp::Read, 12, 0),
        (CtrlOp::ReadWrite, 4, 0),
        (CtrlOp::ReadWrite, 7, 1),
        (CtrlOp::ReadWrite, 12, 1),
        (CtrlOp::BlockWrite, 4, 0),
        (CtrlOp::BlockWrite, 2, 1),
        (CtrlOp::BlockWrite, 8, 2),
        (CtrlOp::BlockRead, 4, 0),
        (CtrlOp::BlockRead, 1, 1),
        (CtrlOp::BlockRead, 0, 4),
        (CtrlOp::Poll, 4, 1),
        (CtrlOp::Other(7), 4, 1),
        (CtrlOp::User(15), 4, 1),
    ];
    for (op, addr, count) in cases {
        let got = operated(rt.alloc(), &request(op, addr, count_to(count).as_slice()))?;
        assert_eq!(rt; got, (None, [10, 11, 12]), "{op:?} at {addr}");
    }
    Ok(())
}

#[test]
fn fixed_words_are_read_and_never_written(rt: HostRuntime) {
    let cases = [
        (CtrlOp::Sleep, 0, 0, Some(words(&[]))),
        (CtrlOp::Read, 4, 0, Some(words(&[2]))),
        (CtrlOp::BlockRead, 0, 4, Some(words(&[3, 2, 1, 0]))),
        (CtrlOp::BlockRead, 0, 5, None),
        (CtrlOp::Write, 0, 1, None),
        (CtrlOp::ReadWrite, 0, 1, None),
        (CtrlOp::BlockWrite, 0, 1, None),
    ];
    for (op, addr, count, want) in cases {
        let request = request(op, addr, count_to(count).as_slice());
        let ack = operate_fixed(ME, &[3, 2, 1, 0], &request);
        let got = if ack.status == CtrlStatus::Okay {
            Some(ack.words)
        } else {
            None
        };
        assert_eq!(rt; got, want, "{op:?} at {addr}");
    }
}

#[test]
fn a_port_without_a_bank_gives_cmderr(rt: HostRuntime) -> Result<(), Fail> {
    let bank: Bank = Box::new(rt.alloc(), three(rt.alloc())?)?;
    let mut banks = slots(rt.alloc(), bank)?;
    for slot in [None, Some(0), Some(15), Some(16), Some(1023)] {
        let ack = banks.operate(ME, slot, &request(CtrlOp::Sleep, 0, &[]));
        assert_eq!(rt; ack.status, CtrlStatus::CmdErr);
    }
    Ok(())
}

#[test]
fn a_masked_byte_is_written_where_it_is_enabled(rt: HostRuntime) -> Result<(), Fail> {
    let drops = Arc::new(rt.alloc(), AtomicU64::new(0))?;
    let inner = plain(rt.alloc(), &[5, 0], &[0, 0xff00])?;
    let bank: Bank = Box::new(
        rt.alloc(),
        Device {
            inner,
            drops: Arc::try_clone(&drops)?,
        },
    )?;
    let mut banks = Banks::new(rt.alloc())?;
    banks.load(1, bank);
    let read = request(CtrlOp::Read, 4, &[]);
    let all = request(CtrlOp::Write, 4, &[u32::MAX]);
    let mut some = request(CtrlOp::Write, 4, &[0]);
    some.enables = 13;
    for write in [all, some] {
        banks.operate(ME, Some(1), &write);
        assert_eq!(rt; banks.operate(ME, Some(1), &read).words, words(&[0xff00]));
    }
    assert_eq!(rt; drops.load(Ordering::SeqCst), 0);
    assert!(rt; banks.discard(1));
    assert!(rt; !banks.discard(1));
    drop(banks);
    assert_eq!(rt; drops.load(Ordering::SeqCst), 1);
    Ok(())
}

#[test]
fn a_block_past_the_end_writes_nothing(rt: HostRuntime) -> Result<(), Fail> {
    let bank: Bank = Box::new(rt.alloc(), plain(rt.alloc(), &[3; 16], &[u32::MAX; 16])?)?;
    let mut banks = Banks::new(rt.alloc())?;
    banks.load(2, bank);
    let ack = banks.operate(ME, Some(2), &request(CtrlOp::BlockWrite, 60, &[1, 2]));
    assert_eq!(rt; ack.status, CtrlStatus::CmdErr);
    assert_eq!(rt; banks.unload(2).and_then(|bank| bank.read(60)), Some(3));
    Ok(())
}

fn words(list: &[u32]) -> Words15 {
    let mut words = Words15::new();
    for word in list {
        if words.len() < 15 {
            words.push(*word);
        }
    }
    words
}

/// The words 1 to `count`.
fn count_to(count: u32) -> Words15 {
    let mut words = Words15::new();
    for k in 0..count {
        if words.len() < 15 {
            words.push(k + 1);
        }
    }
    words
}

#[test]
fn a_load_returns_the_bank_that_was_there(rt: HostRuntime) -> Result<(), Fail> {
    let mut banks = Banks::new(rt.alloc())?;
    let one: Bank = Box::new(rt.alloc(), plain(rt.alloc(), &[5], &[0])?)?;
    let two: Bank = Box::new(rt.alloc(), plain(rt.alloc(), &[6, 7], &[0, 0])?)?;
    assert!(rt; banks.load(3, one).is_none());
    let first = banks.load(3, two);
    assert_eq!(rt; first.as_ref().map(|bank| bank.read(0)), Some(Some(5)));
    drop(first);
    assert!(rt; !banks.discard(2));
    assert!(rt; banks.discard(3));
    assert!(rt; banks.unload(3).is_none());
    Ok(())
}

/// Writes a word of a bank and reads it back: what can be written of it has changed, and no more.
fn write_and_read(bank: &mut PlainBank, addr: u32, value: u32) -> Option<u32>
    ensures read { result ≡ register bank.new.words addr }
    ensures words { bank.new.words ≡
        written_one bank.old.masks bank.old.words (change addr value 15) }
    ensures masks { bank.new.masks ≡ bank.old.masks }
{
    bank.write(addr, value, 15);
    bank.read(addr)
}

#[test]
fn a_bank_is_written_and_read(rt: HostRuntime) -> Result<(), Fail> {
    let mut bank = plain(rt.alloc(), &[5, 0], &[0, 0xff])?;
    assert_eq!(rt; write_and_read(&mut bank, 4, 0x123), Some(0x23));
    assert_eq!(rt; write_and_read(&mut bank, 0, 1), Some(5));
    assert_eq!(rt; write_and_read(&mut bank, 8, 1), None);
    Ok(())
}
