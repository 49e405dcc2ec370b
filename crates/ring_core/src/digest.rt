// SPDX-License-Identifier: ISC
//! The block functions of SHA-1 and SHA-2 (FIPS 180-4, 6.1.2, 6.2.2 and 6.4.2), and their words.
//!
//! There are four kernels, which count the same blocks. The first three run the same `round`, and
//! all four stand once for each family:
//!
//! | Kernel | Its schedule | Runs | Why there |
//! |---|---|---|---|
//! | `window` | a window of sixteen words, by twos | one message | the plain form |
//! | `by_fours` | by fours, ahead of the rounds | one message | rounds add ready sums |
//! | `lanes` | such a window of words in lanes | several | one operation serves all |
//! | `by_instruction` | by fours, between the rounds | one message | 2 or 4 rounds at once |
//!
//! SHA-512 has no kernel `by_instruction`. A window holds the last sixteen words of a schedule,
//! word `t` in slot `t` modulo 16. That of one block gets two words at a time, in the two lanes of
//! a vector.
//!
//! The functions with the plain names, such as `sha2::block_data_order_64`, run the kernel
//! `window`. Those whose names have `fastest` are what `ring` calls. They run the kernel that
//! `kernel::fastest` chooses:
//!
//! - `by_instruction`, in a build that has a processor's `instructions`, on such a processor;
//! - else `window`, in the module for JavaScript, which has no vectors;
//! - else `by_fours`.
//!
//! They are written over traits:
//!
//! | Trait | Of | What it is for |
//! |---|---|---|
//! | `Word` | `Wrapping<u32>`, `Wrapping<u64>` | the operations on one word (3.2) |
//! | `Sha2` | the same | the numbers of SHA-2: rotations, constants, rounds |
//! | `LaneWord` | a word, or a vector of words | what rounds run over: one block, or several |
//! | `FitsWindow` | the same | that sixteen fit in memory |
//! | `Vector` | a vector of words | what a vector has besides: one lane read or set, and shifts |
//! | `FourWords` | a word | how four words of one block stand in a vector |
//! | `BlockWords` | a kind of block | the words by which a window is filled |
//! | `ExtendByFour` | words of SHA-2 | the next four words of the schedule |
//! | `ExtendByTwo` | words of SHA-2, or such in lanes | the next two words of a window |
//! | `Sha1ByTwo` | words of 32 bits, or such in lanes | the same of SHA-1 |
//! | `Sha256Instructions` | a processor | four rounds, and the next four words, by instructions |
//! | `Sha1Instructions` | a processor | the same of SHA-1 |

pub(crate) mod form;
pub mod instructions;
pub(crate) mod kernel;
pub mod sha1;
pub mod sha2;
pub mod states;
pub mod word;
