//! The faces of a cut, written one after the other into memory that is there.
ghost use Rattle.std.specs.Prelude.{◌≡◌, ◌==◌, ◌&&◌, not, ℕ, ◌+◌, ◌-◌, ◌<◌, ◌≤◌, ◌^◌, suc, List, [], ◌∷◌, ◌++◌, drop, length, slice_index, take, vec_len};
ghost use Rattle.linear_law.specs.Names.{Each};
ghost use Rattle.signed_sum.specs.Names.{is_degenerate, numbers_from};
ghost use Rattle.surjection_law.specs.Names.{arity};
ghost use Rattle.interval_cut_law.specs.Names.{IsCutFrom, cut_face};
ghost use Rattle.interval_cut.specs.Names.{HasFaces, IsFaceTable};

/// The places of the faces 1, 2, .. and where each face begins.
#[derive(Drop)]
pub(crate) struct Faces {
    pub(crate) places: Vec<u32>,
    pub(crate) starts: Vec<usize>,
}

/// Writes `count` numbers, from `first` on, at `at`.
pub(crate) fn write_numbers(places: &mut [u32], at: usize, first: u32, count: usize)
    requires room { at + count ≤ length places.old }
    requires small { first + count ≤ 2 ^ 32 }
    ensures { take (at + count) places.new ≡ take at places.old ++ numbers_from first count }
{
    for k in 0..count {
        places[at + k] = first + k as u32;
    }
}

/// The right end of the i-th interval.
pub(crate) fn end_of(inner: &[u32], top: u32, i: usize) -> u32
    requires { i ≤ length inner.now }
    ensures { result ≡ slice_index (inner.now ++ top ∷ []) i }
{
    if i < inner.len() { inner[i] } else { top }
}

/// Where the i-th interval ends, from 1; 0 for i = 0.
pub(crate) fn point_of(inner: &[u32], top: u32, i: usize) -> u32
    requires { i ≤ length inner.now + 1 }
    ensures { result ≡ slice_index (0 ∷ (inner.now ++ top ∷ [])) i }
{
    if i == 0 { 0 } else { end_of(inner, top, i - 1) }
}

/// Writes the places of face `k` at `at`, and answers where they end.
fn write_face(places: &mut [u32], at: usize, values: &[u8], inner: &[u32], top: u32, k: u8) -> usize
    requires cut { IsCutFrom values.now 0 (inner.now ++ top ∷ []) }
    requires long { length values.now ≡ length inner.now + 1 }
    requires room { at + length (cut_face k values.now 0 (inner.now ++ top ∷ [])) ≤ length places.old }
    ensures next { result ≡ at + length (cut_face k values.now 0 (inner.now ++ top ∷ [])) }
    ensures written { take result places.new ≡ take at places.old ++ cut_face k values.now 0 (inner.now ++ top ∷ []) }
{
    let mut next = at;
    let mut start = 0;
    for (i, value) in values.iter().enumerate() {
        let end = end_of(inner, top, i);
        if *value == k {
            let count = (end - start) as usize + 1;
            write_numbers(places, next, start, count);
            next += count;
        }
        start = end;
    }
    next
}

/// Writes all faces.
fn write_faces(
    places: &mut [u32],
    starts: &mut [usize],
    values: &[u8],
    inner: &[u32],
    top: u32,
    most: u8,
)
    requires cut { IsCutFrom values.now 0 (inner.now ++ top ∷ []) }
    requires long { length values.now ≡ length inner.now + 1 }
    requires room { top + length values.now ≤ length places.old }
    requires starts { most + 1 ≤ length starts.old }
    ensures { IsFaceTable values.now (inner.now ++ top ∷ []) most places.new starts.new }
{
    starts[0] = 0;
    let mut next = 0;
    for k in 0..most {
        next = write_face(places, next, values, inner, top, k + 1);
        starts[k as usize + 1] = next;
    }
}

/// Whether two neighbours are equal.
fn has_equal_neighbours(face: &[u32]) -> bool
    ensures { result ≡ is_degenerate face.now }
{
    let mut i = 0;
    while i + 1 < face.len() {
        if face[i] == face[i + 1] {
            return true;
        }
        i += 1;
    }
    false
}

/// Whether a face has `q + 1` places and no two equal neighbours.
pub(crate) fn is_simplex(face: &[u32], q: u32) -> bool
    ensures { result ≡ (not (is_degenerate face.now) && (length face.now == suc q)) }
{
    !has_equal_neighbours(face) && face.len() == q as usize + 1
}

/// The places from `start` up to `end`.
pub(crate) fn part(places: &[u32], start: usize, end: usize) -> &[u32]
    requires order { start ≤ end }
    requires inside { end ≤ length places.now }
    ensures { result.now ≡ take (end - start) (drop start places.now) }
{
    &places[start..end]
}

impl Faces {
    /// The places of the k-th face, from 0.
    pub(crate) fn face(&self, k: u8, most: u8) -> &[u32]
        requires inside { k < most }
        requires table { (n : ℕ) × HasFaces most n self.now.places.items self.now.starts.items }
        ensures value { (u p : List ℕ) → IsFaceTable u p most self.now.places.items self.now.starts.items → result.now ≡ cut_face (k + 1) u 0 p }
        ensures below { (n : ℕ) → HasFaces most n self.now.places.items self.now.starts.items → Each (λ m. m < n) result.now }
        ensures short { length result.now ≤ vec_len self.now.places }
    {
        let starts = self.starts.as_slice();
        part(
            self.places.as_slice(),
            starts[k as usize],
            starts[k as usize + 1],
        )
    }

    /// Writes the faces of a cut.
    pub(crate) fn fill(&mut self, values: &[u8], inner: &[u32], top: u32, most: u8)
        requires cut { IsCutFrom values.now 0 (inner.now ++ top ∷ []) }
        requires long { length values.now ≡ length inner.now + 1 }
        requires room { top + length values.now ≤ vec_len self.old.places }
        requires starts { most + 1 ≤ vec_len self.old.starts }
        ensures table { IsFaceTable values.now (inner.now ++ top ∷ []) most self.new.places.items self.new.starts.items }
        ensures places { vec_len self.new.places ≡ vec_len self.old.places }
        ensures starts { vec_len self.new.starts ≡ vec_len self.old.starts }
    {
        write_faces(
            self.places.as_mut_slice(),
            self.starts.as_mut_slice(),
            values,
            inner,
            top,
            most,
        );
    }
}
