/// How many terms may be counted where no limit is given.
pub const DEFAULT_LIMIT: u64 = 100_000_000;

/// What the words ask for.
#[derive(Clone, Copy, Debug, PartialEq, Eq)]
pub enum Request {
    /// The bases of cohomology of a job's complexes.
    Basis,
    /// The short report of a job, whose counted terms may not pass the limit.
    Report { limit: u64 },
    /// The certificate of a job, within the same limit.
    Certify { limit: u64 },
    /// The Bocksteins of a job's complexes.
    Bockstein,
    /// Whether a text is a certificate that certifies.
    Check,
    /// The May element of this degree for this prime.
    May { prime: u32, degree: u32 },
    /// What the certificate of the torus of this number in the sample family shows at this prime.
    Sample { number: u32, prime: u32 },
}
