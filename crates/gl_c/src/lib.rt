//! The C library: a program in C, or in what calls C, records its own threads and asks for the deadlocks that
//! other schedules of the same events could lead to.
//!
//! ```c
//! goodlock_open(1, 2, 256, &session);                     /* one thread collects */
//! goodlock_lane_open(&session, &lane, &thread);           /* a lane for each thread */
//! goodlock_record(&lane, GOODLOCK_ACQUIRE, lock, place, &at);      /* the thread whose lane it is */
//! goodlock_pull(&session, 1000, &pulled);
//! goodlock_report_so_far(&session, GOODLOCK_FULL_MODE, 4, 1000, &report);
//! ```
//!
//! Each export calls a function of gl_engine, gl_std, gl_report, gl_renumbering or gl_findings, and says its
//! clauses again for what the handles are of. `library/goodlock.h` says of each call who makes it and what it costs.
//!
//! A handle ([`Session`](session::Session), [`Lane`](lane::Lane), [`Made`](made::Made)) is one pointer to a
//! box, or null: then it is of nothing, and calls that want something answer `MISUSE`. A call takes the box out
//! of the handle, works on it, and puts it back.
//!
//! docs/GLOSSARY.md has its words beside those of the field.
#![tactic(auto)]

mod codes;
mod handing_in;
mod lane;
mod lane_calls;
mod lane_opening;
mod lane_state;
mod laws;
mod loose;
mod made;
mod made_calls;
mod made_state;
mod mentioning;
mod naming;
mod numbered;
mod opening;
mod pulling;
mod reporting;
mod session;
mod session_state;
mod settling;
