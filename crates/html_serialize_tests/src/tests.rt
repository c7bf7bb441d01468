//! Worked rows, faults and devices.
mod calls;
mod rows;
