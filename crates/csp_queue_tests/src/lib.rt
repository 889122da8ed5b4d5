//! Threads that use one pool, one lane, or one inbox, at the same time, and one thread alone; and rounds of workers that
//! threads share out. Each test ends by itself, and says the same whatever the schedule.
#![tactic(auto)]

#[cfg(test)]
mod inboxes;
#[cfg(test)]
mod lanes;
#[cfg(test)]
mod pools;
#[cfg(test)]
mod workers;
