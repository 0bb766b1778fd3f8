//! A caller of two associations: what it reads of the one is what it wrote to the other, in the same order.
//!
//! Each call says which moves it is (`specs/Hosts`), and what the caller's logs of the two have then, whatever became of both before. So a caller
//! of its own puts such calls together as `deliver` does, and loses, keeps and repeats datagrams as its network does.
//!
//! `now` is a moment in nanoseconds, by the caller's clock.

ghost use Rattle.std.specs.Prelude.{◌≡◌, ◌⊎◌, ℕ, ◌<◌, All, IfErr, IfOk, IfSome, Ok, OnErr, OnOk, false, length};
ghost use Rattle.sctp_association.specs.HostCalls.{Leads, Log, acts_of_read, host_of, no_log, sent_of};
ghost use Rattle.sctp_association.specs.Hosts.{MovesTo, hosts};
ghost use Rattle.sctp_association.specs.Idle.{IsIdle, MaySend};
ghost use Rattle.sctp_association.specs.Links.{party};
ghost use Rattle.sctp_association.specs.declared.fault.Fault.TheVariants.{BadConfig};
ghost use Rattle.sctp_delivery.specs.SenderCalls.{writes, written_after};
ghost use Rattle.sctp_association.specs.Pairs.{BeginLinked, Comes, ComesSetUp, Delivers, DeliversOne, Exchanges, FirstHasAsked, PassesSetUp, StaysSetUp, Transfers, acts_of_write, answer_of, passes, way_between, write_of};

use crate::association::Association;
use crate::config::{Config, Secrets};
use crate::fault::Fault;
use crate::laws::{
    each_call_is_what_a_host_does, two_associations_begin_once, two_associations_go_on,
};
use bytes::Bytes;
use sctp_data::chunk::chunk_payload_data::PayloadProtocolIdentifier;
use sctp_reassembly::Chunks;
use std::alloc::Global;

/// Answers two new associations, by their configs and secrets. They are linked, and set up with each other. The first one has asked for the association at `now`, in
/// nanoseconds: its INIT is due. The second one waits for that. Refuses with `BadConfig`, where a tag is 0 or a config is out of range.
pub fn begin(
    alloc: Global,
    config: Config,
    secrets: Secrets,
    peer_config: Config,
    peer_secrets: Secrets,
    now: u64,
) -> Result<(Association, Association), Fault>
    ensures linked { IfOk result (λ two. BeginLinked
        (way_between secrets.first_tsn config peer_config)
        (way_between peer_secrets.first_tsn peer_config config)
        (party two.0 no_log) (party two.1 no_log)) }
    ensures asked { IfOk result (λ two. FirstHasAsked two.0 two.1) }
    ensures refused { IfErr result (λ e. e ≡ BadConfig) }
{
    each_call_is_what_a_host_does();
    two_associations_go_on();
    two_associations_begin_once();
    let mut one = Association::new(alloc, config, secrets)?;
    one.connect(now)?;
    match Association::new(alloc, peer_config, peer_secrets) {
        Ok(other) => Ok((one, other)),
        Err(fault) => {
            drop(one);
            Err(fault)
        }
    }
}

/// Writes a message to a stream, as `Association::write` does. It takes no `now`: what waits leaves with the next `pass`. Refuses with
/// `WrongState`, `NoSuchStream`, `Resetting`, `Full`, `MessageTooLarge`, in this order, or `OutOfMemory`, and nothing has changed then.
pub fn send(
    one: &mut Association,
    stream: u16,
    ppi: PayloadProtocolIdentifier,
    bytes: &Bytes,
) -> Result<(), Fault>
    ensures acts { OnOk result ((l : Log) → Leads one.old l
        (acts_of_write stream ppi bytes.now one.old)
        one.new (write_of stream ppi bytes.now one.old l)) }
    ensures set_up { OnOk result ((l : Log)
        → StaysSetUp one.old l one.new (write_of stream ppi bytes.now one.old l)) }
    ensures err { OnErr result (one.new ≡ one.old) }
{
    each_call_is_what_a_host_does();
    two_associations_begin_once();
    one.write(stream, ppi, bytes)
}

/// Answers the next message of a stream, as `Association::read` does at `now`, in nanoseconds: None, where no complete message is there. It is
/// never refused.
pub fn take(one: &mut Association, stream: u16, now: u64) -> Option<Chunks>
    ensures acts { (l : Log) → Leads one.old l (acts_of_read stream one.old.inbound)
        one.new (answer_of stream result l) }
    ensures set_up { (l : Log) → StaysSetUp one.old l one.new (answer_of stream result l) }
{
    each_call_is_what_a_host_does();
    two_associations_begin_once();
    match one.read(stream, now) {
        Ok(message) => message,
        // It is never refused.
        Err(_) => None,
    }
}

/// Hands a datagram over, so many times, each at `now`, in nanoseconds: one that the peer has written, however long ago. One that is dropped
/// is no error, nor is one that is taken in part. Refuses as `Association::handle_datagram` does, for memory: then it was handed over fewer
/// times.
pub fn hand_over(
    other: &mut Association,
    datagram: &Bytes,
    times: u16,
    now: u64,
) -> Result<(), Fault>
    ensures ok { OnOk result (Comes datagram.now times other.old other.new) }
    // Both stay set up with each other, where the datagram has no forged cookie and brings no restart.
    ensures set_up { OnOk result (ComesSetUp datagram.now times other.old other.new) }
    ensures err { OnErr result ((count : ℕ) × Comes datagram.now count other.old other.new) }
{
    each_call_is_what_a_host_does();
    two_associations_begin_once();
    for _time in 0..times {
        other.handle_datagram(datagram, now)?;
    }
    Ok(())
}

/// Passes the next datagram that the one has due at `now`, in nanoseconds, to the other, so many times: 0 where it is lost. Answers whether
/// there was one. Refuses for memory, as `Association::poll_transmit` and `hand_over` do: then the datagram may count as lost.
pub fn pass(
    alloc: Global,
    one: &mut Association,
    other: &mut Association,
    times: u16,
    now: u64,
) -> Result<bool, Fault>
    ensures moves { IfOk result (λ is_sent. (l m : Log) → MovesTo
        (hosts (host_of one.old l) (host_of other.old m))
        (passes is_sent times one.new.draft.bytes)
        (hosts (host_of one.new (sent_of is_sent one.new l)) (host_of other.new m))) }
    ensures set_up { IfOk result (λ is_sent.
        PassesSetUp is_sent times one.old other.old one.new other.new) }
    ensures idle { result ≡ Ok false → MaySend one.new → IsIdle now one.new }
    ensures err { OnErr result ((l m : Log)
        → Exchanges one.old other.old one.new other.new l m) }
{
    each_call_is_what_a_host_does();
    two_associations_begin_once();
    if !one.poll_transmit(now)? {
        return Ok(false);
    }
    let copy = Bytes::copy_from_slice(alloc, one.datagram())?;
    hand_over(other, &copy, times, now)?;
    Ok(true)
}

/// Passes datagrams both ways, one each way in each of so many rounds, all at `now`, in nanoseconds. No timer runs out meanwhile, and of a
/// round without a datagram nothing is told. Refuses as `pass` does, for memory. Whatever it answers, they did nothing else.
pub fn exchange(
    alloc: Global,
    one: &mut Association,
    other: &mut Association,
    rounds: u16,
    now: u64,
) -> Result<(), Fault>
    ensures { (l m : Log) → Exchanges one.old other.old one.new other.new l m }
{
    for _round in 0..rounds {
        pass(alloc, one, other, 1, now)?;
        pass(alloc, other, one, 1, now)?;
    }
    Ok(())
}

/// Writes a message to the one, passes datagrams both ways in so many rounds, all at `now`, in nanoseconds, and answers what is read of the other
/// then: None, where no complete message is there. That is a message that was written to the stream, with its payload type and bytes, in order,
/// and none that was read before, where datagrams are plain (`specs/Hosts`) and fewer than 2^31 - 1 bytes are written. Refuses as `send` does,
/// where nothing was written, or as `exchange` does, where nothing was read.
pub fn deliver(
    alloc: Global,
    one: &mut Association,
    other: &mut Association,
    stream: u16,
    ppi: PayloadProtocolIdentifier,
    bytes: &Bytes,
    rounds: u16,
    now: u64,
) -> Result<Option<Chunks>, Fault>
    ensures ok { IfOk result (λ message. (l m : Log)
        → DeliversOne stream ppi bytes.now message one.old other.old one.new other.new l m) }
    // The message was written, or it was not; and nothing was read.
    ensures err { OnErr result ((l m : Log)
        → Delivers l.written m.read one.old other.old one.new other.new l m
        ⊎ Delivers (written_after (writes stream ppi bytes.now) l.written) m.read
        one.old other.old one.new other.new l m) }
{
    send(one, stream, ppi, bytes)?;
    exchange(alloc, one, other, rounds, now)?;
    Ok(take(other, stream, now))
}

/// Delivers messages one after another, each in so many rounds, all at `now`, in nanoseconds, and answers them: where nothing was written or read
/// before, the same messages in the same order, if none is unordered. Answers None where one has not come after its rounds. Refuses as
/// `deliver` does, or for memory: what was read until then is dropped.
/// Precondition: each has some bytes.
pub fn transfer(
    alloc: Global,
    one: &mut Association,
    other: &mut Association,
    stream: u16,
    ppi: PayloadProtocolIdentifier,
    messages: &[Bytes],
    rounds: u16,
    now: u64,
) -> Result<Option<Vec<Chunks>>, Fault>
    requires { All (λ bytes. 0 < length bytes) messages.now }
    ensures { IfOk result (λ read. IfSome read (λ read. (l m : Log) → Transfers stream ppi
        messages.now read.items one.old other.old one.new other.new l m)) }
{
    let mut read = Vec::new(alloc);
    for bytes in messages {
        match deliver(alloc, one, other, stream, ppi, bytes, rounds, now)? {
            Some(message) => read.push(message)?,
            None => return Ok(None),
        }
    }
    Ok(Some(read))
}
