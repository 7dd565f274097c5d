// What is proposed of pairs that were tried, the strongest forms first, and behind them what held where a cell had a value.
#![tactic(auto)]

mod find;
mod guarded;
mod guards;
mod maps;
mod unions;

pub use find::proposals;
