//! The decoders of all encodings.
ghost use Rattle.std.specs.Prelude.{◌≡◌};

use crate::big5::Big5;
use crate::euc_jp::EucJp;
use crate::euc_kr::EucKr;
use crate::gb18030::Gb18030;
use crate::iso_2022_jp::Iso2022Jp;
use crate::shift_jis::ShiftJis;
use html_encodings::{Basic, Emitted, Encoding, Handler};

/// The decoder of any encoding, in a state.
#[derive(Clone, Copy, Debug)]
pub enum Every {
    /// Of an encoding that needs no large index.
    Basic(Basic),
    /// Of GBK and gb18030.
    Gb18030(Gb18030),
    Big5(Big5),
    EucKr(EucKr),
    EucJp(EucJp),
    ShiftJis(ShiftJis),
    Iso2022Jp(Iso2022Jp),
}

impl Every {
    ghost use Rattle.html_encodings_multibyte.specs.Every.{indexed_start, every_start};

    fn indexed(encoding: Encoding) -> Every
        ensures { result ≡ indexed_start encoding }
    {
        match encoding {
            Encoding::Big5 => Every::Big5(Big5 { lead: 0 }),
            Encoding::EucJp => Every::EucJp(EucJp {
                lead: 0,
                is_jis0212: false,
            }),
            Encoding::EucKr => Every::EucKr(EucKr { lead: 0 }),
            Encoding::Iso2022Jp => Every::Iso2022Jp(Iso2022Jp::new()),
            Encoding::ShiftJis => Every::ShiftJis(ShiftJis { lead: 0 }),
            _ => Every::Gb18030(Gb18030 {
                first: 0,
                second: 0,
                third: 0,
            }),
        }
    }

    /// The decoder of an encoding at the start of its input.
    pub fn new(encoding: Encoding) -> Every
        ensures { result ≡ every_start encoding }
    {
        match Basic::new(encoding) {
            Some(basic) => Every::Basic(basic),
            None => Every::indexed(encoding),
        }
    }
}

impl Handler for Every {
    ghost use Rattle.html_encodings_multibyte.specs.Every.{every_step, every_end};

    ghost step = { every_step };

    ghost end = { every_end };

    fn read(&mut self, byte: u8) -> Emitted {
        match self {
            Every::Basic(handler) => handler.read(byte),
            Every::Gb18030(handler) => handler.read(byte),
            Every::Big5(handler) => handler.read(byte),
            Every::EucKr(handler) => handler.read(byte),
            Every::EucJp(handler) => handler.read(byte),
            Every::ShiftJis(handler) => handler.read(byte),
            Every::Iso2022Jp(handler) => handler.read(byte),
        }
    }

    fn finish(&self) -> Emitted {
        match self {
            Every::Basic(handler) => handler.finish(),
            Every::Gb18030(handler) => handler.finish(),
            Every::Big5(handler) => handler.finish(),
            Every::EucKr(handler) => handler.finish(),
            Every::EucJp(handler) => handler.finish(),
            Every::ShiftJis(handler) => handler.finish(),
            Every::Iso2022Jp(handler) => handler.finish(),
        }
    }

    fn copies_ascii(&self) -> bool {
        match self {
            Every::Basic(handler) => handler.copies_ascii(),
            Every::Gb18030(handler) => handler.copies_ascii(),
            Every::Big5(handler) => handler.copies_ascii(),
            Every::EucKr(handler) => handler.copies_ascii(),
            Every::EucJp(handler) => handler.copies_ascii(),
            Every::ShiftJis(handler) => handler.copies_ascii(),
            Every::Iso2022Jp(handler) => handler.copies_ascii(),
        }
    }
}
