//! `flowc` as a library for programs in other languages: functions that C can call, as `include/flowc.h` declares them.
//!
//! A result whose length the caller cannot know goes to the head of a buffer that the caller gives. Where it does not fit, nothing is
//! written, and the answer says how long it is.
#![tactic(auto)]

mod buffer;
pub mod hosts_c;
pub mod modules_c;
pub mod opening;
pub mod opening_c;
pub mod outcome;
pub mod reply;
pub mod texts_c;
pub mod version_c;
pub mod views_c;
