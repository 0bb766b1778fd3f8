//! The data channels of an input (RFC 8831): what was opened, what each carried, and who closed it.

ghost use Rattle.std.specs.Prelude.{◌≡◌, true, Some, OnOk};
ghost use Rattle.std.specs.BTreeMap as trees;
ghost use Rattle.std.specs.Ordering.{nat_cmp};
ghost use Rattle.sctp_show.specs.Filter as filters;
ghost use Rattle.sctp_follow.specs.Channels as rows;

use crate::channel_text::{Place, put_channels};
use crate::text::{Style, put_name};
use sctp_capture::record::Time;
use sctp_chunks::chunk::chunk_kind::ChunkKind;
use sctp_chunks::chunk::chunk_reconfig::ChunkReconfig;
use sctp_data::chunk::chunk_selective_ack::ChunkSelectiveAck;
use sctp_dissect::dissection::{Item, Reading};
use sctp_follow::associations::{Associations, Way};
use sctp_follow::channels::{Channels as Rows, Closing, Event, first_of, opening_of};
use sctp_follow::flow::payload_length;
use sctp_follow::outstanding::{Outstanding, Sending, forward_of};
use sctp_follow::packet::{Arrived, Packet, refused_sack};
use sctp_follow::summarize::Take;
use sctp_follow::text::put_end;
use sctp_params::param::param_kind::ParamKind;
use sctp_show::brief::DCEP;
use sctp_show::dcep::{Message, read_message};
use sctp_show::filter::{is_data, payload_type_of};
use sctp_show::run::Counts;
use sctp_util::field::{read_u16, read_u32};
use std::alloc::{AllocError, Global};

/// The chunks of an association that are outstanding, and its channels.
#[derive(Drop)]
struct Pair {
    forth: Outstanding,
    back: Outstanding,
    rows: Rows,
}

/// The channels of an input.
#[derive(Drop)]
pub struct Channels {
    style: Style,
    associations: Associations,
    pairs: Vec<Pair>,
}

/// The bytes of a message that DATA or I-DATA has, as far as they are there.
fn user_data(bytes: &[u8]) -> &[u8] {
    if !is_data(bytes) {
        return b"";
    }
    let from = if bytes[0] == 0 { 16usize } else { 20 };
    let to = (read_u16(bytes, 2) as usize).min(bytes.len());
    if from <= to {
        return &bytes[from..to];
    }
    b""
}

impl Pair {
    /// Nothing came yet.
    fn new(alloc: Global) -> Self {
        Pair {
            forth: Outstanding::new(alloc),
            back: Outstanding::new(alloc),
            rows: Rows::new(alloc),
        }
    }

    /// What is known of the chunks of a way.
    fn side(&mut self, way: Way) -> &mut Outstanding {
        match way {
            Way::Forth => &mut self.forth,
            Way::Back => &mut self.back,
        }
    }

    /// Takes DATA or I-DATA of a stream that is sent for the first time: of DCEP only a DATA_CHANNEL_OPEN counts.
    /// Precondition: it is one of them.
    fn take_first(
        &mut self,
        alloc: Global,
        way: Way,
        stream: u16,
        bytes: &[u8],
        arrived: Arrived,
    ) -> Result<(), AllocError>
        requires { filters.is_data bytes.now ≡ true }
        ensures counted { OnOk result ((filters.payload_type_of bytes.now ≡ Some 50 → ⊥)
            → rows.Become stream (rows.noted way (rows.first_of bytes.now)
            (rows.channels_of (trees.get nat_cmp self.old.rows.streams stream)))
            self.old.rows.streams self.new.rows.streams) }
    {
        if payload_type_of(bytes) != Some(DCEP) {
            return self.rows.note(alloc, way, stream, first_of(bytes));
        }
        match read_message(user_data(bytes)) {
            Some(Message::Open(open)) => {
                let opening = opening_of(alloc, &open, way, arrived)?;
                self.rows.open(alloc, stream, opening)
            }
            _ => Ok(()),
        }
    }

    /// Takes DATA or I-DATA that goes this way.
    fn take_data(
        &mut self,
        alloc: Global,
        way: Way,
        bytes: &[u8],
        arrived: Arrived,
    ) -> Result<(), AllocError> {
        if !is_data(bytes) {
            return Ok(());
        }
        let (tsn, stream) = (read_u32(bytes, 4), read_u16(bytes, 8));
        let side = self.side(way);
        side.make_room();
        match side.send(tsn, stream, payload_length(bytes), arrived)? {
            Sending::First => self.take_first(alloc, way, stream, bytes, arrived),
            Sending::Again(_) | Sending::Late(_) => {
                self.rows.note(alloc, way, stream, Event::Again)
            }
        }
    }

    /// Takes a SACK that is about this way.
    fn take_sack(
        &mut self,
        alloc: Global,
        way: Way,
        sack: &ChunkSelectiveAck,
        arrived: Arrived,
    ) -> Result<(), AllocError> {
        let _newly = self.side(way).take_sack(alloc, sack, arrived)?;
        Ok(())
    }

    /// Takes a FORWARD-TSN that goes this way.
    fn take_forward(&mut self, alloc: Global, way: Way, tsn: u32) -> Result<(), AllocError> {
        let abandoned = self.side(way).take_forward(alloc, tsn)?;
        for sent in &abandoned {
            self.rows.note(alloc, way, sent.stream, Event::Abandoned)?;
        }
        Ok(())
    }

    /// Takes a parameter of a RE-CONFIG: a request to reset outgoing streams (RFC 6525 4.1), all of them where it names none.
    fn take_request(&mut self, param: &Option<ParamKind>, closing: Closing) {
        let Some(ParamKind::OutgoingResetRequest(request)) = param else {
            return;
        };
        if request.stream_identifiers.is_empty() {
            self.rows.close_all(closing);
        }
        for stream in &request.stream_identifiers {
            self.rows.close(*stream, closing);
        }
    }

    /// Takes a RE-CONFIG.
    fn take_reconfig(&mut self, chunk: &ChunkReconfig, closing: Closing) {
        self.take_request(&chunk.param_a, closing);
        self.take_request(&chunk.param_b, closing);
    }

    /// Takes a chunk of a packet that goes this way.
    fn take_item(
        &mut self,
        alloc: Global,
        way: Way,
        item: &Item,
        arrived: Arrived,
    ) -> Result<(), AllocError> {
        match &item.reading {
            Reading::Strict(ChunkKind::SelectiveAck(sack)) => {
                return self.take_sack(alloc, way.other(), sack, arrived);
            }
            Reading::Strict(ChunkKind::Reconfig(chunk)) => {
                self.take_reconfig(chunk, Closing { way, arrived });
                return Ok(());
            }
            _ => {}
        }
        if let Some(sack) = refused_sack(alloc, item)? {
            return self.take_sack(alloc, way.other(), &sack, arrived);
        }
        let bytes = item.bytes.as_slice();
        match forward_of(bytes) {
            Some(tsn) => self.take_forward(alloc, way, tsn),
            None => self.take_data(alloc, way, bytes, arrived),
        }
    }
}

impl Channels {
    /// None yet.
    pub fn new(alloc: Global, style: Style) -> Self {
        Channels {
            style,
            associations: Associations::new(alloc),
            pairs: Vec::new(alloc),
        }
    }

    /// Makes room for so many associations.
    fn grow(&mut self, alloc: Global, count: usize) -> Result<(), AllocError> {
        for _more in self.pairs.len()..count {
            self.pairs.push(Pair::new(alloc))?;
        }
        Ok(())
    }

    /// Takes the chunks of a packet that goes this way.
    fn take_packet(
        &mut self,
        alloc: Global,
        at: usize,
        way: Way,
        packet: &Packet<'_>,
    ) -> Result<(), AllocError> {
        self.grow(alloc, at.saturating_add(1))?;
        let Some(pair) = self.pairs.get_mut(at) else {
            return Ok(());
        };
        let arrived = Arrived {
            number: packet.number,
            time: packet.time,
        };
        for item in &packet.seen.items {
            pair.take_item(alloc, way, item, arrived)?;
        }
        Ok(())
    }

    /// Appends the channels of an association, under the line that says which it is.
    fn put_pair(&self, text: &mut String, at: usize, pair: &Pair) -> Result<(), AllocError> {
        let number = at.saturating_add(1);
        if let Some(association) = self.associations.items.get(at)
            && !pair.rows.streams.is_empty()
        {
            put_name(text, self.style.form, number, association)?;
        }
        let place = Place {
            style: self.style,
            start: self.associations.start,
            association: number,
        };
        for (stream, channels) in &pair.rows.streams {
            put_channels(text, &place, *stream, channels)?;
        }
        Ok(())
    }
}

impl Take for Channels {
    fn see_time(&mut self, time: &Option<Time>) {
        self.associations.note_time(time);
    }

    /// Nothing is written before the end. A filter chooses packets; one with a wrong checksum is not read (RFC 9260 6.8).
    fn take(
        &mut self,
        alloc: Global,
        packet: &Packet<'_>,
        is_shown: bool,
    ) -> Result<String, AllocError> {
        if is_shown
            && !packet.is_wrong
            && let Some((at, way)) = self.associations.note_packet(alloc, packet)?
        {
            self.take_packet(alloc, at, way, packet)?;
        }
        Ok(String::new(alloc))
    }

    /// Whether checksums are tested: packets are read.
    fn tests_checksums(&self) -> bool {
        true
    }

    /// Each channel, and the last line.
    fn end(&mut self, alloc: Global, counts: Counts) -> Result<String, AllocError> {
        let mut text = String::new(alloc);
        let mut at = 0usize;
        for pair in &self.pairs {
            self.put_pair(&mut text, at, pair)?;
            at = at.saturating_add(1);
        }
        put_end(&mut text, self.style.form, counts, &self.associations)?;
        Ok(text)
    }
}
