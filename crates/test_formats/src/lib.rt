//! Tests of frames, of the reader of a byte stream, and of the lines and words of scripts, through the public items of `wl_frames`,
//! `wl_process_rules` and `wl_script_words`.
#![tactic(auto)]

#[cfg(test)]
mod tests;
