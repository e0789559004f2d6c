//! What an item of a run does, as plain data, and how it is carried out: all of it, or without memory nothing.
#![tactic(auto)]

mod carry;
mod control;
mod deed;
mod frame;
mod frames;
mod threads;

pub use carry::carry_out;
pub use deed::{ControlDeed, Deed, Ended, FrameDeed, FramesDeed, Gain, HeapDeed};
