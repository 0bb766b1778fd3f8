//! What the peer sent and this side does not know (RFC 9260 3.2, 3.2.1, 3.2.2).

ghost use Rattle.std.specs.Prelude.{◌≡◌, ◌⊎◌, ◌+◌, ◌-◌, ◌<◌, ◌≤◌, ◌++◌, ℕ, if◌then◌else◌, None, Some, Ok, IfOk, IfSome, OnOk, OnErr, length, map, ◌∷◌, []};
ghost use Rattle.sctp_association.specs.Halves.{PutsOthers};
ghost use Rattle.sctp_association.specs.Kept.{OwesNoMore};
ghost use Rattle.sctp_association.specs.Leaving.{LeavesInto};
ghost use Rattle.sctp_association.specs.Ordered.{PutsTypes};
ghost use Rattle.sctp_association.specs.Reports.{host_name_told, most_reported, params_told, reported_after, unrecognized_in};
ghost use Rattle.sctp_association.specs.Rows.{StepsOn};
ghost use Rattle.sctp_association.specs.declared.association.Reason.{Reason};
ghost use Rattle.sctp_association.specs.declared.association.arrivals.Step.TheVariants as step;
ghost use Rattle.sctp_handshake.specs.InitValues.{is_param, place};
ghost use Rattle.sctp_handshake.specs.Machines.{dropped};
ghost use Rattle.sctp_params.specs.ParamKind.{parameter_of};

use super::arrivals::{Step, bytes_of};
use super::{Association, Reason};
use crate::due::Report;
use crate::fault::Fault;
use bytes::{Bytes, BytesMut};
use sctp_chunks::ChunkError;
use sctp_datagram::ChunkPlace;
use sctp_datagram::params::{ParamPlace, param_at};
use sctp_handshake::Reported;
use sctp_handshake::init_value::INIT_LENGTH;
use sctp_params::{ParamKind, ParamUnknown};
use sctp_util::util::get_padding_size;

// The type of a FORWARD-TSN of interleaved messages, which is read over, but not offered (RFC 8260 2.3.1).
const I_FORWARD_TSN: u8 = 194;

// The type of the parameter Unrecognized Parameter (RFC 9260 3.3.3).
const UNRECOGNIZED_PARAMETER: u16 = 8;

// The bytes of a packet before what an ERROR with one cause tells: the headers of the packet, of the chunk, and of the cause.
const BEFORE_CAUSE: usize = 12 + 4 + 4;

// The most bytes of an INIT ACK of this side beside what it reports: header, numbers, cookie, and what it offers.
const MOST_INIT_ACK: usize = 4 + 16 + 92 + 4 + 8 + 8;

// Where the parameter lies that begins at a place.
fn told_at(raw: &[u8], at: usize) -> Option<ParamPlace>
    ensures place { result
        ≡ (if is_param raw.now at then Some (place raw.now at) else None) }
    ensures within { IfSome result (λ p. at + (4 + p.length) ≤ length raw.now) }
{
    match param_at(raw, at) {
        Ok(place) => Some(place),
        Err(_) => None,
    }
}

impl Association {
    // How many bytes an ERROR with one cause tells at most, so that it fits into a packet.
    fn most_reported(&self) -> usize
        ensures value { result ≡ most_reported self.now.config.mtu }
        ensures within { result ≤ self.now.config.mtu }
    {
        self.config.mtu.saturating_sub(BEFORE_CAUSE) / 4 * 4
    }

    /// Notes a chunk of a type that this side does not know, where its sender is to be told of it (RFC 9260 3.2, 3.3.10.6): as much as fits
    /// into a packet. While one waits no other is noted, so a datagram has one answer at most.
    #[inline(never)]
    pub(super) fn note_unknown(
        &mut self,
        datagram: &Bytes,
        chunk: ChunkPlace,
    ) -> Result<Step, Fault>
        ensures noted { OnOk result (self.new.due ≡ record self.old.due {
          report = reported_after datagram.now chunk self.old;
        }) }
        ensures refused { (r : Reason) → result ≡ Ok (step.Refused r) → self.new ≡ self.old }
        ensures goes_on { IfOk result (λ s. s ≡ step.Next) }
        ensures whole { result ≡ Ok step.Cut → ⊥ }
        ensures rest { self.new ≡ record self.old { due = self.new.due } }
        ensures owes { OwesNoMore self.old self.new }
        ensures err { OnErr result (self.new ≡ self.old) }
        ensures row { (now : ℕ) → IfOk result
            (λ s. StepsOn (dropped self.old.machine) 0 now s self.old self.new) }
    {
        let is_reported = chunk.is_reported || chunk.typ == I_FORWARD_TSN;
        if !is_reported || self.due.report.is_some() || self.machine.peer().is_none() {
            return Ok(Step::Next);
        }
        let bytes = bytes_of(datagram, chunk);
        let length = chunk.length.min(self.most_reported());
        let told = bytes.get(..length).unwrap_or(bytes);
        let raw = Bytes::copy_from_slice(self.alloc, told)?;
        self.due.report = Some(Report { code: 6, raw });
        Ok(Step::Next)
    }

    /// The parameters in the value of an INIT or an INIT ACK that their sender is told of, with padding between them, as many as fit into a
    /// packet (RFC 9260 3.2.2). Where there is none it takes no memory.
    pub(super) fn reported_in(&self, value: &[u8]) -> Result<Option<Bytes>, Fault>
        ensures { IfOk result (λ o. o ≡ params_told self.now.config.mtu value.now) }
    {
        let most = self.most_reported();
        let mut raw = BytesMut::new(self.alloc);
        let mut from = INIT_LENGTH;
        for _seen in 0..value.len() {
            let Some(one) = Reported::first_from(value, from) else {
                break;
            };
            let param = &value[one.from..one.to];
            let padding = get_padding_size(raw.len());
            if param.len() + padding > most - raw.len() {
                break;
            }
            raw.extend_from_slice(&[0u8; 3][..padding])?;
            raw.extend_from_slice(param)?;
            from = one.next;
        }
        if raw.is_empty() {
            return Ok(None);
        }
        Ok(Some(raw.freeze()?))
    }

    /// The Host Name Address of a value, where it fits into a packet; else None (RFC 9260 5.1.2, 3.3.10.5).
    pub(super) fn host_name_at(
        &self,
        value: &[u8],
        place: ParamPlace,
    ) -> Result<Option<Bytes>, Fault>
        requires header { 4 ≤ place.at }
        requires within { place.at + place.length ≤ length value.now }
        ensures { IfOk result (λ o. o ≡ host_name_told value.now place self.now.config.mtu) }
    {
        if place.length + 4 > self.most_reported() {
            return Ok(None);
        }
        let param = &value[place.at - 4..place.at + place.length];
        Ok(Some(Bytes::copy_from_slice(self.alloc, param)?))
    }

    /// Adds an Unrecognized Parameter to an INIT ACK for each parameter that is reported of the INIT, as many as fit (RFC 9260 3.2.2).
    pub(super) fn push_reported(&self, params: &mut Vec<ParamKind>) -> Result<(), Fault>
        ensures { OnOk result (map parameter_of params.new.items ≡ map parameter_of params.old.items
            ++ unrecognized_in (self.now.draft.limit - length self.now.draft.bytes - 132)
            self.now.due.unknown_params) }
    {
        let Some(raw) = &self.due.unknown_params else {
            return Ok(());
        };
        let mut left = self.draft.room().saturating_sub(MOST_INIT_ACK);
        let mut at = 0;
        for _seen in 0..raw.len() {
            let Some(place) = told_at(raw.as_slice(), at) else {
                break;
            };
            // With its header and its padding.
            let length = 4 + place.length;
            if length > left.saturating_sub(4) / 4 * 4 {
                break;
            }
            left -= 4 + length + get_padding_size(length);
            let value = raw.slice(at..at + length)?;
            params.push(ParamKind::Unknown(ParamUnknown {
                typ: UNRECOGNIZED_PARAMETER,
                value,
            }))?;
            at = place.next;
        }
        Ok(())
    }

    /// Puts the ERROR about what this side does not know, if it fits: it waits for a packet that is empty, into which it always fits. Refuses
    /// only for memory, and nothing has changed then.
    #[tactic(auto, using(crate::proofs::Ordered::order_one, crate::proofs::Ordered::order_none, crate::proofs::Others::others_one, crate::proofs::Others::others_none, crate::proofs::Others::others_then))]
    pub(super) fn put_report(&mut self) -> Result<(), Fault>
        ensures others { PutsOthers self.old self.new }
        ensures once { OnOk result (self.new.due.report ≡ None
            ⊎ ((self.new.draft ≡ self.old.draft) × (12 < length self.old.draft.bytes))) }
        ensures due { self.new.due ≡ record self.old.due { report = self.new.due.report } }
        ensures kept { self.new.due.report ≡ None ⊎ (self.new.due.report ≡ self.old.due.report) }
        ensures none { self.old.due.report ≡ None → self.new ≡ self.old }
        ensures limit { self.new.draft.limit ≡ self.old.draft.limit }
        ensures rest { self.new ≡ record self.old {
          due = self.new.due;
          draft = self.new.draft;
        } }
        ensures err { OnErr result (self.new ≡ self.old) }
        ensures leaves { LeavesInto self.old self.new }
        ensures order { PutsTypes (9 ∷ [])
            self.old.draft.bytes self.new.draft.bytes }
    {
        if self.due.report.is_none() {
            return Ok(());
        }
        self.write_report()
    }

    // The same, where one is due: seldom, and so apart.
    #[tactic(auto, using(crate::proofs::Ordered::order_one, crate::proofs::Ordered::order_none, crate::proofs::Others::others_one, crate::proofs::Others::others_none, crate::proofs::Others::others_then))]
    #[inline(never)]
    fn write_report(&mut self) -> Result<(), Fault>
        ensures others { PutsOthers self.old self.new }
        ensures once { OnOk result (self.new.due.report ≡ None
            ⊎ ((self.new.draft ≡ self.old.draft) × (12 < length self.old.draft.bytes))) }
        ensures due { self.new.due ≡ record self.old.due { report = self.new.due.report } }
        ensures kept { self.new.due.report ≡ None ⊎ (self.new.due.report ≡ self.old.due.report) }
        ensures none { self.old.due.report ≡ None → self.new ≡ self.old }
        ensures limit { self.new.draft.limit ≡ self.old.draft.limit }
        ensures rest { self.new ≡ record self.old {
          due = self.new.due;
          draft = self.new.draft;
        } }
        ensures err { OnErr result (self.new ≡ self.old) }
        ensures leaves { LeavesInto self.old self.new }
        ensures order { PutsTypes (9 ∷ [])
            self.old.draft.bytes self.new.draft.bytes }
    {
        let Some(report) = &self.due.report else {
            return Ok(());
        };
        let error = ChunkError {
            error_causes: self.causes(report.code, report.raw.as_slice())?,
        };
        let is_put = self.draft.put(&error);
        if is_put || self.draft.is_empty() {
            self.due.report = None;
        }
        Ok(())
    }
}
