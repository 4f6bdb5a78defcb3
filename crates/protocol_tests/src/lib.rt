//! Tests of the protocol by public calls, of what no run of the program shows: of the streams that bring calls and take their answers, as
//! lines and as connections (`lines`, `http_api`), of the words in them (`names`, `answers`), and of the bodies of calls and of replies
//! (`bodies`).
#![tactic(auto)]

#[cfg(test)]
mod answered_lines;
#[cfg(test)]
mod connections;
#[cfg(test)]
mod groups;
#[cfg(test)]
mod marks;
#[cfg(test)]
mod replies;
#[cfg(test)]
mod words;
