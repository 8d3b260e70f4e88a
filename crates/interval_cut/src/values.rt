//! Cochains by their values, and their products on the faces of a cut.
ghost use Rattle.std.specs.Prelude.{◌≡◌, ◌==◌, ◌%◌, ℕ, ◌<◌, ◌≤◌, cond, IsTrue, List, length, map, pos, suc, take, vec_len};
ghost use Rattle.linear_law.specs.Names.{Each, IsAscending};
ghost use Rattle.signed_sum.specs.Names.{signed};
ghost use Rattle.simplicial_law.specs.Names.{CongruentInt};
ghost use Rattle.interval_cut_law.specs.Names.{vertex_at};
ghost use Rattle.fp_field.specs.Served.{served};
ghost use Rattle.interval_cut.specs.Names.{HasFaces, IsFaceTable, product_from};

use crate::faces::Faces;
use fp_field::Fp;

/// A cochain modulo `P`: a degree, and a finite map from ascending lists of vertices to values.
pub trait Values<const P: u32> {
    ghost degree_of: { Self → ℕ };

    ghost value_of: { Self → List ℕ → ℕ };

    /// The degree.
    fn degree(&self) -> u32
        ensures { result ≡ degree_of self.now };

    /// The value of the map at a list of vertices, or 0. It takes no memory.
    fn at(&self, face: &[u32]) -> Fp<P>
        ensures { result ≡ value_of self.now face.now };

    ghost small: { (a : Self) (f : List ℕ) → value_of a f < P };

    // Lists that are not strictly ascending have the value 0, and those of another degree.
    ghost ascending: { (a : Self) (f : List ℕ) → (IsAscending f → ⊥) → value_of a f ≡ 0 };

    ghost long: { (a : Self) (f : List ℕ) → (length f ≡ suc (degree_of a) → ⊥) → value_of a f ≡ 0 };
}

/// Writes the vertices of a simplex at the places of a face.
fn write_vertices(vertices: &mut [u32], face: &[u32], simplex: &[u32])
    requires room { length face.now ≤ length vertices.old }
    requires places { Each (λ m. m < length simplex.now) face.now }
    ensures { take (length face.now) vertices.new ≡ map (λ m. vertex_at simplex.now m) face.now }
{
    for (i, place) in face.iter().enumerate() {
        vertices[i] = simplex[*place as usize];
    }
}

/// The value of one of two cochains.
fn value_at<const P: u32, V: Values<P>>(alpha: &V, gamma: &V, second: bool, face: &[u32]) -> Fp<P>
    ensures { result ≡ cond second (V.value_of gamma.now face.now) (V.value_of alpha.now face.now) }
{
    if second {
        gamma.at(face)
    } else {
        alpha.at(face)
    }
}

/// The product of the values on the faces 1 to `most` at the vertices of a simplex, where face k takes
/// `gamma` if bit k - 1 of the mask is set and `alpha` if not.
pub(crate) fn product<const P: u32, V: Values<P>>(
    faces: &Faces,
    vertices: &mut [u32],
    most: u8,
    alpha: &V,
    gamma: &V,
    mask: u32,
    simplex: &[u32],
) -> Fp<P>
    requires prime { IsTrue (served P) }
    requires table { HasFaces most (length simplex.now) faces.now.places.items faces.now.starts.items }
    requires room { vec_len faces.now.places ≤ length vertices.old }
    ensures { (u p : List ℕ) → IsFaceTable u p most faces.now.places.items faces.now.starts.items →
        CongruentInt P (pos result) (product_from 1 most mask (λ f. pos (V.value_of alpha.now f)) (λ f. pos (V.value_of gamma.now f)) u p simplex.now) }
{
    let mut product = Fp::new(1);
    let mut left = mask;
    for k in 0..most {
        let face = faces.face(k, most);
        write_vertices(vertices, face, simplex);
        product = product.mul(value_at(alpha, gamma, left % 2 == 1, &vertices[..face.len()]));
        if product.is_zero() {
            return product;
        }
        left /= 2;
    }
    product
}

/// A value times a sign.
pub fn with_sign<const P: u32>(value: Fp<P>, sign: i8) -> Fp<P>
    requires { IsTrue (served P) }
    ensures { (e : ℕ) → sign ≡ signed e (pos 1) → CongruentInt P (pos result) (signed e (pos value.entry)) }
{
    if sign == 1 { value } else { value.neg() }
}
