// SPDX-License-Identifier: ISC
//! Byte sources, and values made of their bytes.
//!
//! The library has no source of its own: the caller implements [`SecureRandom`] and answers for the
//! quality of the bytes. A contract sees a source as the list of the bytes that it has left.
//!
//! ```
//! pub fn nonce(rng: &mut dyn SecureRandom) -> Result<[u8; 16], Unspecified>
//!     ensures ok { IfOk result (λ nonce. left rng.old ≡ nonce ++ left rng.new) }
//!     ensures refused { IsErr result ↔ (ready rng.old 16 ≡ false) }
//!     ensures unchanged { OnErr result (left rng.new ≡ left rng.old) }
//! {
//!     Ok(generate::<[u8; 16]>(rng)?.expose())
//! }
//! ```
//!
//! The imports of this example stand in `crates/ring_examples/src/rand.rt`.

ghost use Rattle.std.specs.Prelude.{◌≡◌, ◌↔◌, ◌≤◌, ◌++◌, ℕ, Bool, false, List, IsTrue, IfOk, IsErr};
ghost use Rattle.std.specs.Prelude.{OnOk, OnErr, length, refl, replicate};
ghost use Rattle.std.specs.Borrow.{sem, Lends, Array, u8};
ghost use Rattle.ring.specs.Prelude.{random_value};

use ring_core::error::Unspecified;

/// A source of bytes, which a caller implements.
pub trait SecureRandom {
    // The bytes that the source has left.
    ghost left: { Self → List ℕ };

    // Whether the source can give so many bytes at once.
    ghost ready: { Self → ℕ → Bool };

    /// Whether `fill` would write `len` bytes.
    fn is_ready(&self, len: usize) -> bool
        ensures { result ≡ ready self.now len };

    /// Writes the next bytes of the source to the whole of `dest`.
    ///
    /// Refused where the source is not ready for so many bytes. It then keeps all of its bytes and
    /// stays unready for so many, and `dest` is unchanged.
    fn fill(&mut self, dest: &mut [u8]) -> Result<(), Unspecified>
        ensures ok { OnOk result (left self.old ≡ dest.new ++ left self.new) }
        ensures refused { IsErr result ↔ (ready self.old (length dest.old) ≡ false) }
        ensures unchanged { OnErr result ((left self.new ≡ left self.old) × (dest.new ≡ dest.old)) }
        ensures unready { OnErr result (ready self.new (length dest.old) ≡ false) };

    // A source is ready for no more bytes than it has left.
    ghost enough: { (s : Self) (n : ℕ) → IsTrue (ready s n) → n ≤ length (left s) };
}

/// A type whose values are made of a fixed number of bytes.
pub trait RandomlyConstructable: Sized + Drop {
    // How many bytes each value has.
    ghost byte_len: { ℕ };

    // The bytes of a value.
    ghost bytes: { Self → List ℕ };

    // The value with these bytes in place of its own.
    ghost with_bytes: { Self → List ℕ → Self };

    /// The value whose bytes are 0, to be overwritten.
    fn zero() -> Self
        ensures { bytes result ≡ replicate byte_len 0 };

    /// Lends all bytes of the value for writing.
    fn as_mut_bytes(&mut self) -> &mut [u8]
        ensures* writes { sem 𝓛
            (Lends Self.row (Array u8 0) self.entry result (with_bytes self.old)) }
        ensures value { result.now ≡ bytes self.old };

    // The bytes that are written are then those of the value.
    ghost written: { (x : Self) (ws : List ℕ)
        → length ws ≡ length (bytes x) → bytes (with_bytes x ws) ≡ ws };
}

/// An array is made of its own bytes.
impl<const N: usize> RandomlyConstructable for [u8; N] {
    ghost byte_len = { N };

    ghost bytes = { λ x. x };

    ghost with_bytes = { λ _ ws. ws };

    ghost written = { λ _ _ _. refl };

    fn zero() -> Self {
        [0; N]
    }

    fn as_mut_bytes(&mut self) -> &mut [u8] {
        &mut self[..]
    }
}

/// A value made of a source's bytes. It cannot be copied, so that it is exposed once.
#[derive(Drop)]
pub struct Random<T: RandomlyConstructable>(T);

impl<T: RandomlyConstructable> Random<T> {
    /// Returns the value.
    pub fn expose(self) -> T
        ensures { result ≡ random_value self }
    {
        let Random(value) = self;
        value
    }
}

/// Makes a value of the next bytes of the source `rng`, as many as the type has.
///
/// Refused where the source is not ready for so many bytes. It then keeps all of its bytes.
pub fn generate<T: RandomlyConstructable>(
    rng: &mut dyn SecureRandom,
) -> Result<Random<T>, Unspecified>
    ensures ok { IfOk result (λ random.
        left rng.old ≡ T.bytes (random_value random) ++ left rng.new) }
    ensures refused { IsErr result ↔ (ready rng.old T.byte_len ≡ false) }
    ensures unchanged { OnErr result (left rng.new ≡ left rng.old) }
    ensures len { IfOk result (λ random. length (T.bytes (random_value random)) ≡ T.byte_len) }
    ensures unready { OnErr result (ready rng.new T.byte_len ≡ false) }
{
    let mut value = T::zero();
    rng.fill(value.as_mut_bytes())?;
    Ok(Random(value))
}
