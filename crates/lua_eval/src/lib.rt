//! The evaluation of Lua code: a machine of explicit frames that does what the plans of `lua_model` say.
//!
//! # How a step is written and proved
//!
//! A step takes the frames, the heap and the budget, and says what it does: `Goes items frames plan heap left frames'
//! step heap' left'` (`specs/Steps`) says that the frames and the plan do, whatever the answers, what the new frames
//! and the step do. A step that leaves the heap or the budget alone says so for every heap or budget, and one that
//! leaves the frames alone says `Does`. `kept` says what later heaps keep. Nothing is said of `NoMemory`.
//!
//! Each arm of a step is one of these:
//!
//! 1. It returns an end, or pushes one frame and enters a job or asks. What the frame does with an end (`after`, in
//!    `specs/Frames`) computes to what the plan has behind the job. `using(tl_base::proofs::Steps::pushes)`, or
//!    `payments` where it pays, is meant to prove it; by hand it is `returns`, `enters`, `enters_alone` or `asks` of
//!    `proofs/Doing`.
//! 2. It passes on to a step whose plan is its own: `let step = f(..)?; Ok(step)`, or `f(..)` alone, whose answer is
//!    `if-ok` of `proofs/Passing`. Where its plan, its heap or its arguments are the callee's by equations alone, the
//!    answer is `moved` of `proofs/Below`, with an equation of plans and one of heaps.
//! 3. It makes a text, an environment or a function first, and passes on: `text_goes` of `proofs/Below`, and
//!    `entering_goes`, `variable_goes` and `closing_goes` of `proofs/Making`.
//! 4. It pushes a frame for what is behind a plan, and passes on to a step that does the plan alone: `library_below`,
//!    `call_below`, `read_below`, `named_below`, `target_below` and `statements_below` of `proofs/Below`. Such a step is
//!    best a function of its own without a `match`, whose answers are `returns-clause-means` and `returns-clause-kept`,
//!    and `returns` where it has one clause.
//! 5. It chooses by a test that the plan makes too: `chosen` of `proofs/Below`, and for tables `absent_read`,
//!    `absent_store`, `present_store`, `nil_stored` and `raw_stored` of `proofs/Reading`.
//! 6. It begins a job behind its payment, with no step between: `begins`, and `lacks` where no unit is left, of
//!    `proofs/Doing`; `job_below` where a frame waits for the job's end.
//!
//! Where a step calls another one twice, the answer needs no name of the call: `same_run` of `proofs/Below` is followed
//! by what the callee ensures (`proofs/lists/item`).
//!
//! Where a plan has a last case for all other variants, what the code needs of it is asked in a small function that
//! gives a value and no plan (`field_kind`), and a lemma with one `refl` for each case says that the plan is the same by
//! that value (`field_is`, `read_is`, `define_in_by`, `left_other`, `binary_is`, `numbers_are`). Every lemma takes all
//! its arguments: `Goes` unfolds, and so none is found from it. In an answer they are, in this order, the tree's items,
//! the frames before and after, what the lemma is about, the heaps, the budgets and the step.
//!
//! A value holds a number, which has a model, so that it is used up where it is passed by value: what goes on with it
//! behind a call takes it by reference, or passes `copy` of it. A frame with values is owned, and taken by reference
//! where some arm leaves it. A list that ends is known by `none_is`, and one that goes on by the `cases` of
//! `split_first`.
//!
//! `kept` of an arm that changed the heap by itself is `keeps_by` of `proofs/Keeping`, with a lemma of
//! `lua_table::proofs::Keeping`.
#![tactic(auto)]

pub mod assignments;
pub mod callees;
pub mod calling;
pub mod calls;
pub mod cells;
pub mod code;
pub mod direct;
pub mod expressions;
pub mod fields;
pub mod frame;
pub mod lists;
pub mod loops;
pub mod lua;
pub mod machine;
pub mod operators;
pub mod quick;
pub mod raise;
pub mod running;
pub mod statements;
pub mod storing;
pub mod tables;
pub mod turns;
pub mod values;
pub mod waiting;

pub use frame::LuaFrame;
pub use lua::Lua;
