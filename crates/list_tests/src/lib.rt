//! Tests of linked lists, run queues and documents: random calls beside a model, values, capacities,
//! renumbering, and a play list as an example.
#![tactic(auto)]

#[cfg(test)]
mod capacities;
#[cfg(test)]
mod model;
#[cfg(test)]
mod owned_values;
#[cfg(test)]
mod play_list;
#[cfg(test)]
mod random_lists;
#[cfg(test)]
mod random_queues;
#[cfg(test)]
mod renumbering;
#[cfg(test)]
mod suites;
#[cfg(test)]
mod values;
