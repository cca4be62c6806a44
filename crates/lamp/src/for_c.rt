// A panel's answers as C gets them.
ghost use Rattle.std.specs.Prelude.{◌≡◌};
ghost use Rattle.lamp.specs.ForC.{status_for_c, gauge_for_c};

use crate::Panel;
use crate::questions::{LoadState, is_lit, load_state};
use panel::Identified;

// How a panel's last load stands. The lamp is green, number and detail are 0 and length has the bytes of the image; or the refusal's number
// and detail; or all three are 0 while a text is under way. A level above 255 is kept as 0; neither is a level.
#[repr(C)]
#[derive(Clone, Copy)]
pub struct StatusForC {
    pub number: u32,
    pub detail: u64,
    pub length: usize,
    pub lamp: bool,
    pub level: u8,
}

// Number 0, and the serial number of the gauge and the date of its calibration; else the refusal's number and detail, and 0 for each value.
#[repr(C)]
#[derive(Clone, Copy)]
pub struct GaugeForC {
    pub number: u32,
    pub detail: u64,
    pub serial: u32,
    pub year: u16,
    pub month: u8,
    pub day: u8,
}

impl From<Panel> for StatusForC {
    ghost from_gives = { λ panel for_c. for_c ≡ status_for_c panel };

    fn from(panel: Panel) -> StatusForC {
        let (number, detail, length) = match load_state(panel) {
            LoadState::UnderWay => (0, 0, 0),
            LoadState::Accepted(length) => (0, 0, length),
            LoadState::Refused(refusal) => (refusal.number, refusal.detail, 0),
        };
        StatusForC {
            number,
            detail,
            length,
            lamp: is_lit(panel),
            level: panel.level,
        }
    }
}

impl From<Identified> for GaugeForC {
    ghost from_gives = { λ gauge for_c. for_c ≡ gauge_for_c gauge };

    fn from(gauge: Identified) -> GaugeForC {
        match gauge {
            Ok(identity) => GaugeForC {
                number: 0,
                detail: 0,
                serial: identity.serial,
                year: identity.year,
                month: identity.month,
                day: identity.day,
            },
            Err(refusal) => GaugeForC {
                number: refusal.number,
                detail: refusal.detail,
                serial: 0,
                year: 0,
                month: 0,
                day: 0,
            },
        }
    }
}
