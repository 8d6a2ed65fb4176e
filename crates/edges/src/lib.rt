#![tactic(auto)]

// Tests at both edges of every bound of a book's text: the last value that keeps a rule and the first that breaks it,
// told by a reader and by a writer, against bytes, lengths and places that were worked out by hand.
#[cfg(test)]
mod calls;
#[cfg(test)]
mod cuts;
#[cfg(test)]
mod judged;
#[cfg(test)]
mod lots;
#[cfg(test)]
mod numbers;
#[cfg(test)]
mod opened;
#[cfg(test)]
mod pages;
#[cfg(test)]
mod payments;
#[cfg(test)]
mod rules;
#[cfg(test)]
mod sample;
#[cfg(test)]
mod spelled;
#[cfg(test)]
mod writing;
