//! Selectors: how their text is read, which elements match them, and queries (CSS Selectors Level 4, in this project's
//! part; DOM Standard, 1.3 Selectors).
//!
//! A selector's text is taken as it is: no code unit of it is replaced (own rule).
#![tactic(auto)]

mod above;
mod asking;
mod by_id;
mod chain;
mod compounds;
mod grammar;
mod joined;
mod matching;
mod parsed;
mod query;
mod selector;
mod siblings;
mod simples;
mod tokens;
mod values;

pub use grammar::law_texts_say_one_selector;
pub use parsed::ParsedTexts;
pub use selector::Selector;
