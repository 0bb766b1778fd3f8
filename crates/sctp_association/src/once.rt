//! Chunks of which a datagram has at most one.

ghost use Rattle.std.specs.Prelude.{◌≡◌, ◌==◌, ◌&&◌, not};
ghost use Rattle.sctp_association.specs.Once.{has_seen, none_seen, seen};

/// Of which kinds a chunk came in a datagram. A lawful peer sends at most one of each (RFC 9260 6.2, 9.2; RFC 3758 3.5; RFC 6525 3.1).
#[derive(Clone, Copy)]
pub(crate) struct Once {
    sack: bool,
    shutdown: bool,
    reconfig: bool,
    forward_tsn: bool,
}

impl Once {
    /// The first chunk of a datagram came.
    pub(crate) fn behind(first: u8) -> Once
        ensures { result ≡ seen first none_seen }
    {
        Once {
            sack: first == 3,
            shutdown: first == 7,
            reconfig: first == 130,
            forward_tsn: first == 192,
        }
    }

    /// A chunk of a type comes behind the first one. Answers whether it counts: none of these kinds came before, and no COOKIE-ECHO does,
    /// which stands first or nowhere (RFC 9260 5.1).
    pub(crate) fn counts(&mut self, typ: u8) -> bool
        ensures value { result ≡ (not (has_seen typ self.old) && not (typ == 10)) }
        ensures noted { self.new ≡ seen typ self.old }
    {
        // DATA is of no such kind.
        if typ == 0 {
            return true;
        }
        self.note(typ)
    }

    // The same of a chunk that is no DATA.
    #[inline(never)]
    fn note(&mut self, typ: u8) -> bool
        ensures value { result ≡ (not (has_seen typ self.old) && not (typ == 10)) }
        ensures noted { self.new ≡ seen typ self.old }
    {
        let counts = match typ {
            3 => !self.sack,
            7 => !self.shutdown,
            10 => false,
            130 => !self.reconfig,
            192 => !self.forward_tsn,
            _ => true,
        };
        self.sack = self.sack || typ == 3;
        self.shutdown = self.shutdown || typ == 7;
        self.reconfig = self.reconfig || typ == 130;
        self.forward_tsn = self.forward_tsn || typ == 192;
        counts
    }
}
