//! Lists of calls upon one output, and a call cut into windows.
#![tactic(auto)]

ghost use Rattle.std.specs.Prelude.{◌≡◌, ℕ, Bool, true, List, length};
ghost use Rattle.book.specs.Division.{Divides};
ghost use Rattle.book.specs.Requests.{Request};
ghost use Rattle.std.specs.Option.{option_map};
ghost use Rattle.std.specs.List.{slice_get};

use calls::Call;

pub mod running;
pub mod windows;

/// A list of calls means their requests, in order.
pub trait CallList<'t> {
    /// One call of the list.
    type Item: Call<'t> + Drop;

    ghost requests: { Self → List Request };

    /// The number of calls.
    fn len(&self) -> usize
        ensures { result ≡ length (requests self.now) };

    /// A call by its number, from 0 on; nothing past the end.
    fn call(&self, number: usize) -> Option<Self::Item>
        ensures { option_map Self.Item.Call.request result ≡ slice_get (requests self.now) number };
}

/// A call that can be cut into calls on consecutive windows.
pub trait Divisible<'t>: Call<'t> {
    ghost part: { Self → ℕ → ℕ → Self };

    ghost cuttable: { Self → Bool };

    /// The call on so many rows of its window from the row `at` on, with column operands cut alongside.
    fn window(&self, at: usize, rows: usize) -> Self
    where
        Self: Sized,
        ensures { result ≡ part self.now at rows };

    /// Whether it can be cut: its windows end, and column operands are as long as its window.
    fn is_cuttable(&self) -> bool
        ensures { result ≡ cuttable self.now };

    // The calls on windows have the call's rows.
    ghost divides: { (c : Self) → cuttable c ≡ true → Divides Self.Call.request part c };
}
