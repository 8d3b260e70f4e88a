//! Faces of a simplex by their places among its vertices.
ghost use Rattle.std.specs.Prelude.{◌≡◌, ◌<◌, ◌+◌, [], get_or, length, map, IfSome};
ghost use Rattle.interval_cut_law.specs.Names.{vertex_at};
ghost use Rattle.complex_index.specs.Names.{IsComplexIndex, level};
ghost use Rattle.may_steenrod.specs.Chosen.{IsChosen};

use complex_index::Indexed;

/// A face of a simplex: its degree and its place among the simplices of this degree, and how many of the places that are
/// chosen are still to be met.
#[derive(Clone, Copy)]
pub(crate) struct Face {
    pub(crate) degree: u32,
    pub(crate) place: u32,
    rest: usize,
}

impl Face {
    /// Keeps the vertex at place `k` of the simplex where it is chosen, and else leaves it out. Those behind it are done.
    fn at(self, index: &Indexed, simplex: &[u32], places: &[u32], k: usize) -> Option<Face>
        requires complex { IsComplexIndex index.now }
        requires inside { k < length simplex.now }
        requires chosen { IsChosen index.now simplex.now places.now (k + 1) self }
        ensures { IfSome result (λ f. IsChosen index.now simplex.now places.now k f) }
    {
        let Face {
            degree,
            place,
            rest,
        } = self;
        if rest > 0 && places[rest - 1] as usize == k {
            return Some(Face {
                degree,
                place,
                rest: rest - 1,
            });
        }
        if degree == 0 {
            return None;
        }
        Some(Face {
            degree: degree - 1,
            place: index.faces(degree, place)[k],
            rest,
        })
    }
}

/// The face of a simplex of degree `n`, at a place, on these of its places: the others are left out one after the other, from
/// the last on. `None` where the places do not ascend, or are not those of its vertices.
pub(crate) fn face_on(index: &Indexed, n: u32, place: u32, places: &[u32]) -> Option<Face>
    requires complex { IsComplexIndex index.now }
    requires inside { place < length (level index.now n) }
    ensures inside { IfSome result (λ f. f.place < length (level index.now f.degree)) }
    ensures face { IfSome result (λ f. get_or (level index.now f.degree) f.place [] ≡ map (λ i. vertex_at (get_or (level index.now n) place []) i) places.now) }
{
    let simplex = index.simplex(n, place);
    let mut face = Face {
        degree: n,
        place,
        rest: places.len(),
    };
    for count in 0..simplex.len() {
        face = face.at(index, simplex, places, simplex.len() - 1 - count)?;
    }
    if face.rest > 0 {
        return None;
    }
    Some(face)
}
