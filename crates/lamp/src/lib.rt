// A panel by value, over a lent image: its level, how far its last load has come, its lamp, and readings while the lamp is green.
#![tactic(auto)]

// A panel. Its caller keeps it, and hands it to the next call; any bytes are a panel, and its fields are the library's own.
#[repr(C)]
#[derive(Clone, Copy)]
pub struct Panel {
    // while a text is under way, how many of its lines were good; without an image, the detail of the refusal
    pub lines_or_detail: u64,
    // bytes of the image; without one, the number of the refusal
    pub size_or_number: u32,
    pub level: u8,
    pub stage: u8,
    // the image's first byte, while a text is under way
    pub first: u8,
}

// Power-on, and loads.
mod loads;

pub use loads::{begin, end, line, load, power_on};

// What a panel is asked.
mod questions;

pub use questions::{LoadState, gauge, is_lit, load_state, reading};

// Answers as C gets them.
mod for_c;

pub use for_c::{GaugeForC, StatusForC};
