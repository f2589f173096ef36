// The host program's calls: C functions on plain numbers and byte slices, each number of an answer by a call of its
// own.
#![tactic(auto)]

mod almanacs;
mod calendar;
mod months;
mod orders;
mod positions;
mod searches;
mod signs;
