// A gate, at which a lane may be made to wait. Tests use one to fix the order of steps.
use std::sync::Wait;

/// Is called before each step of a lane, and may wait there. It changes nothing of the office.
pub trait Gate {
    /// `lane` is the lane's number; `step` is 0 before a line of the lane, and k after the k-th
    /// batch of a valuation.
    fn at<R: Wait>(&self, rt: &R, lane: u8, step: u32);
}

/// A gate that returns at once.
#[derive(Clone, Copy, Debug)]
pub struct OpenGate;

impl Gate for OpenGate {
    fn at<R: Wait>(&self, _rt: &R, _lane: u8, _step: u32) {}
}
