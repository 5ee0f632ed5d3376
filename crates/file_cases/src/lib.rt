// Examples of files: what reads, and what is refused where.
#![tactic(auto)]

#[cfg(test)]
mod filled_tables;
#[cfg(test)]
mod hand_ins;
#[cfg(test)]
mod model_files;
#[cfg(test)]
mod verdicts;
#[cfg(test)]
mod writing;
