//! Pictures of associations, as SVG: TSNs over time, one panel for each way.

ghost use Rattle.std.specs.Prelude.{◌≡◌, ◌≤◌};
ghost use Rattle.sctp_follow.specs.Plot as plots;

use crate::associations::{Association, Associations, Way};
use crate::band::{Band, Moment, take_packet};
use crate::packet::{Arrived, Packet};
use crate::plot::{Instant, Mark, ORIGIN, Panel, Sign, add_packet, longest_stand};
use crate::strip::{Look, put_strip};
use crate::summarize::Take;
use crate::text::put_ends;
use sctp_capture::record::Time;
use sctp_dissect::dissection::Item;
use sctp_show::page::Form;
use sctp_show::run::Counts;
use sctp_show::time::{Elapsed, time_since};
use std::alloc::{AllocError, Global};
use std::collections::BTreeSet;

/// How wide and how high a panel is, in tenths of a unit.
pub(crate) const WIDTH: u32 = 10_500;

const HEIGHT: u32 = 2_600;

/// How wide and how high a cell is, in the same: in it one mark of a kind is drawn.
pub(crate) const CELL: u64 = 20;

/// How many units a panel takes with what stands around it, and the head of an association.
const PANEL_STEP: u64 = 470;

const HEAD_STEP: u64 = 36;

/// The look of the picture, and of each kind of mark.
const STYLE: &str = "<style>\
    text{font:12px sans-serif;fill:#222}.h{font-weight:bold;font-size:14px}.e{text-anchor:end}.m{text-anchor:middle}\
    path{fill:none;stroke-linecap:round}.a{stroke:#bbb;stroke-width:8}\
    .d{stroke:#1f6feb;stroke-width:36}.r{stroke:#d1242f;stroke-width:52}\
    .s{stroke:#1a7f37;stroke-width:16}.g{stroke:#e8a317;stroke-width:28}\
    .f{stroke:#8250df;stroke-width:90;stroke-linecap:butt}.w{fill:#d1242f;fill-opacity:.12}\
    .o{stroke:#1f6feb;fill:#1f6feb;fill-opacity:.2;stroke-width:10}.c{stroke:#1a7f37;fill:#1a7f37;fill-opacity:.2;stroke-width:10}\
    </style>\n";

/// Which color means what.
const LEGEND: &str = "<g transform=\"translate(110 44)\">\
    <g transform=\"scale(.1)\"><path class=\"d\" d=\"M0 -40h0\"/><path class=\"r\" d=\"M700 -40h0\"/>\
    <path class=\"s\" d=\"M1800 -40h200\"/><path class=\"g\" d=\"M3600 -80v80\"/><path class=\"f\" d=\"M5000 -85v90\"/>\
    <rect class=\"w\" x=\"6300\" y=\"-90\" width=\"200\" height=\"110\"/></g>\
    <text x=\"8\">DATA</text><text x=\"78\">sent again</text><text x=\"206\">SACK, cumulative TSN</text>\
    <text x=\"368\">SACK, gap block</text><text x=\"510\">FORWARD-TSN</text>\
    <text x=\"656\">longest stall: nothing more acknowledged, DATA outstanding</text></g>\n";

/// What is drawn of a way.
#[derive(Drop)]
struct Side {
    panel: Panel,
    band: Band,
}

/// What is drawn of an association.
#[derive(Drop)]
struct Plot {
    forth: Side,
    back: Side,
    /// Whether each of its packets has a time.
    is_timed: bool,
}

/// The pictures of an input.
#[derive(Drop)]
pub struct Pictures {
    associations: Associations,
    plots: Vec<Plot>,
}

/// The lowest and the highest of what is drawn.
#[derive(Clone, Copy)]
pub(crate) struct Range {
    pub low: u64,
    pub high: u64,
}

/// Where the marks of a panel stand.
#[derive(Clone, Copy)]
pub(crate) struct Frame {
    pub places: Range,
    pub heights: Range,
    pub is_timed: bool,
}

/// A number of a range, as one from 0 to `room`; what lies outside of the range stands at the nearer end, and a range of one number in the middle.
pub(crate) fn scaled(range: Range, room: u32, value: u64) -> u64
    ensures is { result ≡ plots.scaled range.low range.high room value }
    ensures few { result ≤ room }
{
    if range.high <= range.low {
        return room as u64 / 2;
    }
    let value = value.max(range.low).min(range.high);
    let part = (value - range.low) as u128 * room as u128 / (range.high - range.low) as u128;
    part as u64
}

impl Range {
    /// No number yet.
    fn none() -> Self {
        Range {
            low: u64::MAX,
            high: 0,
        }
    }

    /// With a number more.
    fn with(self, value: u64) -> Self {
        Range {
            low: self.low.min(value),
            high: self.high.max(value),
        }
    }
}

/// Where the marks of both ways stand from left to right.
fn places_of(plot: &Plot) -> Range {
    let mut places = Range::none();
    for mark in &plot.forth.panel.marks {
        places = places.with(mark.instant.place(plot.is_timed));
    }
    for mark in &plot.back.panel.marks {
        places = places.with(mark.instant.place(plot.is_timed));
    }
    places
}

/// How high the marks of a way stand.
fn heights_of(panel: &Panel) -> Range {
    let mut heights = Range::none();
    for mark in &panel.marks {
        heights = heights.with(mark.low as u64).with(mark.high as u64);
    }
    heights
}

impl Frame {
    /// How far right a place stands.
    pub(crate) fn across(&self, place: u64) -> u64
        ensures is { result ≡ plots.scaled self.now.places.low self.now.places.high 10500 place }
        ensures few { result ≤ 10500 }
    {
        scaled(self.places, WIDTH, place)
    }

    /// How far down a height stands.
    fn down(&self, height: u64) -> u64
        ensures { result ≤ 2600 }
    {
        HEIGHT as u64 - scaled(self.heights, HEIGHT, height)
    }

    /// Where a mark stands: how far right, and how far down its highest TSN and its lowest one.
    fn corner(&self, mark: &Mark) -> (u64, u64, u64) {
        let across = self.across(mark.instant.place(self.is_timed));
        (
            across,
            self.down(mark.high as u64),
            self.down(mark.low as u64),
        )
    }
}

/// The cell of the picture that a corner lies in, two units wide and high: it says where the mark ends too.
fn cell_of(corner: (u64, u64, u64)) -> u64 {
    let (x, y, end) = corner;
    ((x / CELL) % 65_536 * 65_536 + (y / CELL) % 65_536) * 65_536 + (end / CELL) % 65_536
}

/// Draws a mark.
fn put_mark(
    text: &mut String,
    sign: Sign,
    is_first: bool,
    corner: (u64, u64, u64),
) -> Result<(), AllocError> {
    let (x, y, end) = corner;
    match sign {
        Sign::Data | Sign::Again => write!(text, "M{x} {y}h0"),
        Sign::Gap => write!(text, "M{x} {y}V{end}"),
        Sign::Skipped => write!(text, "M{x} {y}m0-45v90"),
        Sign::Acked if is_first => write!(text, "M{x} {y}"),
        Sign::Acked => write!(text, "H{x}V{y}"),
    }
}

/// The class of a kind of mark.
fn class_of(sign: Sign) -> &'static str {
    match sign {
        Sign::Data => "d",
        Sign::Again => "r",
        Sign::Acked => "s",
        Sign::Gap => "g",
        Sign::Skipped => "f",
    }
}

/// Whether a cell is none of these, which it is from now on.
fn is_new_in(cells: &mut BTreeSet<u64>, cell: u64) -> Result<bool, AllocError> {
    match cells.insert(cell) {
        Ok(is_new) => Ok(is_new),
        Err(_) => Err(AllocError),
    }
}

/// Draws all marks of a kind, as one path: of those in one cell of the picture the first, so that its length has a bound.
fn put_marks(
    alloc: Global,
    text: &mut String,
    frame: &Frame,
    panel: &Panel,
    sign: Sign,
) -> Result<(), AllocError> {
    let class = class_of(sign);
    write!(text, "<path class=\"{class}\" d=\"M0 0")?;
    let mut drawn: BTreeSet<u64> = BTreeSet::new(alloc);
    let mut before = None;
    for mark in &panel.marks {
        if mark.sign == sign {
            let corner = frame.corner(mark);
            let cell = Some(cell_of(corner));
            if cell != before && is_new_in(&mut drawn, cell_of(corner))? {
                put_mark(text, sign, before.is_none(), corner)?;
            }
            before = cell;
        }
    }
    text.push_str("\"/>\n")
}

/// When something was captured: seconds since the first record, or its record.
fn put_span(text: &mut String, is_timed: bool, span: u64) -> Result<(), AllocError> {
    if !is_timed {
        return write!(text, "record {span}");
    }
    let elapsed = Elapsed {
        is_before: false,
        nanoseconds: span as u128,
        is_fine: false,
    };
    write!(text, "{elapsed} s")
}

/// How long something took: seconds, or records.
fn put_length(text: &mut String, is_timed: bool, length: u64) -> Result<(), AllocError> {
    if is_timed {
        return put_span(text, true, length);
    }
    write!(text, "{length} records")
}

/// Draws the longest time that the cumulative TSN stood, if it did, and says how many seconds or records it took.
fn put_stand(text: &mut String, frame: &Frame, panel: &Panel) -> Result<(), AllocError> {
    let stand = longest_stand(panel, frame.is_timed);
    let (from, to) = (frame.across(stand.from), frame.across(stand.to));
    if to <= from {
        return Ok(());
    }
    let width = to - from;
    write!(
        text,
        "<rect class=\"w\" x=\"{from}\" y=\"0\" width=\"{width}\" height=\"{HEIGHT}\"><title>"
    )?;
    put_length(text, frame.is_timed, stand.to.saturating_sub(stand.from))?;
    text.push_str("</title></rect>\n")
}

/// A number between the ends of a range, so many quarters from its lower one.
fn quarter_of(range: Range, quarters: u64) -> u64 {
    let span = range.high.saturating_sub(range.low) as u128;
    let part = span * quarters.min(4) as u128 / 4;
    range.low.saturating_add(part as u64)
}

/// The numbers beside a panel, each at its height.
fn put_heights(text: &mut String, frame: &Frame) -> Result<(), AllocError> {
    for quarters in 0..=4u64 {
        let height = quarter_of(frame.heights, quarters);
        if quarters > 0 && height == quarter_of(frame.heights, quarters - 1) {
            continue;
        }
        let y = frame.down(height) / 10 + 4;
        let sign = if height < ORIGIN as u64 { "-" } else { "" };
        let number = height.abs_diff(ORIGIN as u64);
        write!(
            text,
            "<text class=\"e\" x=\"-8\" y=\"{y}\">{sign}{number}</text>"
        )?;
    }
    text.push_str("\n")
}

/// The times or records below a panel, each at its place.
fn put_places(text: &mut String, frame: &Frame) -> Result<(), AllocError> {
    for quarters in 0..=4u64 {
        let place = quarter_of(frame.places, quarters);
        if quarters > 0 && place == quarter_of(frame.places, quarters - 1) {
            continue;
        }
        let x = frame.across(place) / 10;
        write!(text, "<text class=\"m\" x=\"{x}\" y=\"412\">")?;
        put_span(text, frame.is_timed, place)?;
        text.push_str("</text>\n")?;
    }
    Ok(())
}

/// Draws a panel, its title above it, and the bytes and windows of its way below it.
fn put_panel(
    alloc: Global,
    text: &mut String,
    frame: &Frame,
    side: &Side,
    arrow: &str,
    y: u64,
) -> Result<(), AllocError> {
    let panel = &side.panel;
    let base = panel.base.unwrap_or(0);
    let top = y.saturating_add(24);
    write!(
        text,
        "<g transform=\"translate(110 {top})\"><text y=\"-8\">{arrow} TSNs relative to {base}</text>\n"
    )?;
    put_heights(text, frame)?;
    put_places(text, frame)?;
    text.push_str("<g transform=\"scale(.1)\">\n")?;
    put_stand(text, frame, panel)?;
    write!(text, "<path class=\"a\" d=\"M0 0V{HEIGHT}H{WIDTH}\"/>\n")?;
    for sign in [
        Sign::Acked,
        Sign::Gap,
        Sign::Data,
        Sign::Again,
        Sign::Skipped,
    ] {
        put_marks(alloc, text, frame, panel, sign)?;
    }
    text.push_str("</g>\n")?;
    put_strip(alloc, text, frame, Look::Bytes, &side.band.bytes)?;
    put_strip(alloc, text, frame, Look::Window, &side.band.windows)?;
    text.push_str("</g>\n")
}

/// Draws an association that has marks, from here down, and answers where the next one begins.
fn put_plot(
    alloc: Global,
    text: &mut String,
    number: usize,
    association: &Association,
    plot: &Plot,
    y: u64,
) -> Result<u64, AllocError> {
    if plot.forth.panel.marks.is_empty() && plot.back.panel.marks.is_empty() {
        return Ok(y);
    }
    let top = y.saturating_add(28);
    write!(
        text,
        "<text class=\"h\" x=\"20\" y=\"{top}\">Association {number}:"
    )?;
    put_ends(text, Form::Text, association)?;
    text.push_str("</text>\n")?;
    let places = places_of(plot);
    let mut next = y.saturating_add(HEAD_STEP);
    for (arrow, side) in [("&gt;", &plot.forth), ("&lt;", &plot.back)] {
        if side.panel.marks.is_empty() {
            continue;
        }
        let frame = Frame {
            places,
            heights: heights_of(&side.panel),
            is_timed: plot.is_timed,
        };
        put_panel(alloc, text, &frame, side, arrow, next)?;
        next = next.saturating_add(PANEL_STEP);
    }
    Ok(next)
}

impl Side {
    /// Nothing was seen.
    fn new(alloc: Global) -> Self {
        Side {
            panel: Panel::new(alloc),
            band: Band::new(alloc),
        }
    }
}

/// Adds what a packet says, of its own way and of the other one: marks, if it is shown.
fn add_to(
    alloc: Global,
    own: &mut Side,
    other: &mut Side,
    moment: Moment,
    items: &[Item],
) -> Result<(), AllocError> {
    if moment.is_shown {
        add_packet(&mut own.panel, &mut other.panel, moment.instant, items)?;
    }
    take_packet(alloc, &mut own.band, &mut other.band, moment, items)
}

impl Plot {
    /// Adds what a packet says that goes this way.
    fn add(
        &mut self,
        alloc: Global,
        way: Way,
        moment: Moment,
        items: &[Item],
    ) -> Result<(), AllocError> {
        if moment.is_shown {
            self.is_timed = self.is_timed && moment.arrived.time.is_some();
        }
        match way {
            Way::Forth => add_to(alloc, &mut self.forth, &mut self.back, moment, items),
            Way::Back => add_to(alloc, &mut self.back, &mut self.forth, moment, items),
        }
    }
}

impl Pictures {
    /// Nothing is drawn yet.
    pub fn new(alloc: Global) -> Self {
        Pictures {
            associations: Associations::new(alloc),
            plots: Vec::new(alloc),
        }
    }

    /// Makes room for so many associations.
    fn grow(&mut self, alloc: Global, count: usize) -> Result<(), AllocError> {
        for _more in self.plots.len()..count {
            self.plots.push(Plot {
                forth: Side::new(alloc),
                back: Side::new(alloc),
                is_timed: true,
            })?;
        }
        Ok(())
    }

    /// When a packet was captured.
    fn instant_of(&self, packet: &Packet<'_>) -> Instant {
        let nanoseconds = match (&self.associations.start, &packet.time) {
            (Some(start), Some(time)) => time_since(start, time).nanoseconds,
            _ => 0,
        };
        Instant {
            number: packet.number,
            nanoseconds: u64::try_from(nanoseconds).unwrap_or(u64::MAX),
        }
    }
}

impl Take for Pictures {
    fn see_time(&mut self, time: &Option<Time>) {
        self.associations.note_time(time);
    }

    fn take(
        &mut self,
        alloc: Global,
        packet: &Packet<'_>,
        is_shown: bool,
    ) -> Result<String, AllocError> {
        if let Some((at, way)) = self.associations.note_packet(alloc, packet)? {
            self.grow(alloc, at.saturating_add(1))?;
            let moment = Moment {
                arrived: Arrived {
                    number: packet.number,
                    time: packet.time,
                },
                instant: self.instant_of(packet),
                is_shown,
            };
            if let Some(plot) = self.plots.get_mut(at) {
                plot.add(alloc, way, moment, packet.seen.items.as_slice())?;
            }
        }
        Ok(String::new(alloc))
    }

    /// Checksums are not computed.
    fn tests_checksums(&self) -> bool {
        false
    }

    /// The picture of each association, one below the other.
    fn end(&mut self, alloc: Global, _counts: Counts) -> Result<String, AllocError> {
        let mut body = String::new(alloc);
        let mut y = 50u64;
        let mut at = 0usize;
        for plot in &self.plots {
            if let Some(association) = self.associations.items.get(at) {
                y = put_plot(alloc, &mut body, at.saturating_add(1), association, plot, y)?;
            }
            at = at.saturating_add(1);
        }
        let mut text = String::new(alloc);
        write!(
            text,
            "<svg xmlns=\"http://www.w3.org/2000/svg\" viewBox=\"0 0 1200 {y}\">\n{STYLE}<rect width=\"1200\" height=\"{y}\" fill=\"#fff\"/>\n{LEGEND}"
        )?;
        text.push_str(&body)?;
        text.push_str("</svg>\n")?;
        Ok(text)
    }
}
