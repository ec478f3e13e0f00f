// The encoder: the words of a bundle, or its refusal. The decoder reads them as that bundle again (encoder_laws).
#![tactic(auto, unfolding(fields::specs::Place::writing, crate::specs::Encode::guarded, crate::specs::Encode::slot_word, crate::specs::Encode::written, crate::specs::Encode::single, crate::specs::Encode::pair))]

pub mod bundles;
pub mod words;

use answers::Refusal;

// The words of a bundle.
#[derive(Clone, Copy)]
pub enum CodeWords {
    One(u32),
    Two(u32, u32),
}

// What a bundle is written as.
pub type Written = Result<CodeWords, Refusal>;
