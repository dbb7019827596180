ghost use Rattle.std.specs.Prelude.{IsTrue, ◌↔◌, ◌≡◌, ◌^◌, ◌<◌, ◌++◌, ◌⊎◌, IfOk};
ghost use Rattle.block_library.specs.Producer.{FitsPlan, packet_of};
ghost use Rattle.block_library.specs.Samples.{sample, samples_from};

use chdr_packets::{Body, Packet};
use chdr_words::{Bytes, Epid};
use rf_base::{Items, Memory};
use std::alloc::Global;

/// What a Tx block gives: `packets` packets of `spp` samples of `item` bytes for one consumer.
///
/// Rule: docs/blocks.md, "Tx".
#[derive(Clone, Copy, Debug, PartialEq, Eq)]
pub struct TxPlan {
    /// At most 16,384.
    pub packets: u32,
    /// Samples per packet, 1 to 1,022.
    pub spp: u32,
    /// Bytes per sample, 4 or 8.
    pub item: u32,
    /// The time of the first sample in ticks, where the packets tell their times.
    pub time: Option<u64>,
    /// The consumer.
    pub dst: Epid,
}

#[tactic(auto, unfolding(crate::specs::Producer::packet_of))]
impl TxPlan {
    /// Whether the numbers are in their ranges.
    pub fn fits(&self) -> bool
        ensures { IsTrue result ↔ FitsPlan self.now }
    {
        self.packets <= 16384
            && 1 <= self.spp
            && self.spp <= 1022
            && (self.item == 4 || self.item == 8)
    }

    /// Packet `k` of the plan, counted from 0; the stream that it goes out on sets SeqNum.
    pub fn packet(&self, alloc: Global, k: u32) -> Result<Packet, Memory>
        requires fits { FitsPlan self.now }
        requires within { k < self.now.packets }
        ensures { IfOk result (λ made. made ≡ packet_of self.now k) }
    {
        let first = k * self.spp;
        let payload = self.payload(alloc, first)?;
        Ok(Packet {
            vc: 0,
            eob: k + 1 == self.packets,
            eov: false,
            seq: 0,
            dst: self.dst,
            mdata: Items::new(alloc),
            body: Body::Samples {
                time: self.time.map(|start| start.wrapping_add(first as u64)),
                payload,
            },
        })
    }

    /// The samples of one packet, from number `first` on.
    #[tactic(auto, using(crate::proofs::SampleLemmas::sample_lemmas))]
    fn payload(&self, alloc: Global, first: u32) -> Result<Bytes, Memory>
        requires fits { FitsPlan self.now }
        requires within { first < 2 ^ 24 }
        ensures { IfOk result (λ made. made ≡ samples_from self.now.item first self.now.spp) }
    {
        let mut bytes = Vec::with_capacity(alloc, (self.spp * self.item) as usize)?;
        for number in first..first + self.spp {
            push_sample(&mut bytes, self.item, number)?;
        }
        Ok(Items::from_vec(bytes))
    }
}

/// Appends the sample of a number.
fn push_sample(bytes: &mut Vec<u8>, item: u32, number: u32) -> Result<(), Memory>
    requires { (item ≡ 4) ⊎ (item ≡ 8) }
    ensures { IfOk result (λ _. bytes.new.items ≡ bytes.old.items ++ sample item number) }
{
    if item == 4 {
        bytes.extend_from_slice(&number.to_le_bytes())?;
    } else {
        bytes.extend_from_slice(&(number as u64).to_le_bytes())?;
    }
    Ok(())
}
