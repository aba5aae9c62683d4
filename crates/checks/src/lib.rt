// Examples: what the models, a timing and the report must give.
#![tactic(auto)]

#[cfg(test)]
mod blocks;
#[cfg(test)]
mod drafts;
#[cfg(test)]
mod files;
#[cfg(test)]
mod kinds;
#[cfg(test)]
mod loading;
#[cfg(test)]
mod reports;
#[cfg(test)]
mod timings;
