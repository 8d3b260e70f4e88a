ghost use Rattle.std.specs.{Prelude.{◌≡◌, ◌≢◌, ℕ, ◌<◌, ◌≤◌, ◌⊎◌, IfSome, IsTrue, None, Some, map, string_bytes}, Io.KnownBytes.IsAtEnd};
ghost use Rattle.comch_io.specs.Causes.{Rose};
ghost use Rattle.fp_field.specs.Served.{served};
ghost use Rattle.comch_app.specs.Names.{Basis, Bockstein, Certify, Check, May, Report, Sample, BocksteinAnswers, Ends, EndsRead, InputAnswers, JobAnswers, MayAnswers, RefusesWords, WritesRefusal, CheckAnswers, IsCertified, IsNo, SampleAnswers, ReadsInput, request_of, AskedAnswers, IsAskable, SaidCause, SaysIt};

use crate::Status;
use crate::answer::{Asked, Stop, Wanted, answer};
use crate::may::may;
use crate::request::Request;
use crate::samples::sample_answer;
use crate::words::request_of;
use comch_io::{Sink, Source, write_all};
use report_text::Form;
use std::alloc::Global;

// Writes a text, and ends with this status.
fn said<K: Sink>(sink: &mut K, status: Status, text: &[u8]) -> Status
    ensures says { SaysIt status text.now (K.written sink.old) (K.written sink.new) result }
    ensures cause { SaidCause status (K.faults sink.old) (K.faults sink.new) result }
{
    match write_all(sink, text) {
        Ok(()) => status,
        Err(_) => Status::WriteFault,
    }
}

// Writes what is asked of what the source has left.
fn reading_run<S: Source, K: Sink>(
    alloc: Global,
    source: &mut S,
    sink: &mut K,
    asked: Asked,
) -> Status
    requires { IsAskable asked }
    ensures answers { EndsRead (AskedAnswers asked) (S.left source.old) (S.left source.new) (S.given source.old) (S.given source.new)
        (S.faults source.old) (S.faults source.new) (K.written sink.old) (K.written sink.new) result }
    ensures words { result ≢ Status.BadWords }
    ensures refusal { WritesRefusal (K.written sink.old) (K.written sink.new) result }
    ensures whole { result ≡ Status.Done → IsAtEnd (S.left source.new) }
    ensures read { result ≡ Status.ReadFault → Rose (S.faults source.old) (S.faults source.new) }
    ensures write { result ≡ Status.WriteFault → Rose (K.faults sink.old) (K.faults sink.new) }
    ensures reads { S.faults source.old < S.faults source.new →
        (result ≡ Status.ReadFault) ⊎ (result ≡ Status.WriteFault) }
    ensures writes { K.faults sink.old < K.faults sink.new → result ≡ Status.WriteFault }
{
    match answer(alloc, source, asked) {
        Ok((status, text)) => said(sink, status, text.as_slice()),
        Err(Stop::Memory) => said(sink, Status::OutOfMemory, b"refused memory\n"),
        Err(Stop::Read) => said(sink, Status::ReadFault, b"refused read\n"),
    }
}

// Writes the May element of a degree for a prime.
fn may_run<K: Sink>(alloc: Global, sink: &mut K, prime: u32, degree: u32) -> Status
    requires prime { IsTrue (served prime) }
    requires low { degree ≤ 60 }
    ensures answers { Ends (MayAnswers prime degree) (K.written sink.old) (K.written sink.new) result }
    ensures words { result ≢ Status.BadWords }
    ensures refusal { WritesRefusal (K.written sink.old) (K.written sink.new) result }
    ensures read { result ≢ Status.ReadFault }
    ensures write { result ≡ Status.WriteFault → Rose (K.faults sink.old) (K.faults sink.new) }
    ensures writes { K.faults sink.old < K.faults sink.new → result ≡ Status.WriteFault }
{
    match may(alloc, prime, degree) {
        Ok((status, text)) => said(sink, status, text.as_slice()),
        Err(_) => said(sink, Status::OutOfMemory, b"refused memory\n"),
    }
}

// Writes what is shown of the torus of a number at a prime.
fn sample_run<K: Sink>(alloc: Global, sink: &mut K, number: u32, prime: u32) -> Status
    requires some { 1 ≤ number }
    requires low { number ≤ 994 }
    requires prime { IsTrue (served prime) }
    ensures answers { Ends (SampleAnswers number prime) (K.written sink.old) (K.written sink.new) result }
    ensures words { result ≢ Status.BadWords }
    ensures refusal { WritesRefusal (K.written sink.old) (K.written sink.new) result }
    ensures read { result ≢ Status.ReadFault }
    ensures write { result ≡ Status.WriteFault → Rose (K.faults sink.old) (K.faults sink.new) }
    ensures writes { K.faults sink.old < K.faults sink.new → result ≡ Status.WriteFault }
{
    match sample_answer(alloc, number, prime) {
        Ok((status, text)) => said(sink, status, text.as_slice()),
        Err(_) => said(sink, Status::OutOfMemory, b"refused memory\n"),
    }
}

/// Does what the words ask for, with what the source gives, and writes the answer.
///
/// The whole text is made before its first byte is written. Want of memory has its own status, and
/// no memory is taken after a failed read.
pub fn run<S: Source, K: Sink>(
    alloc: Global,
    words: &[String],
    source: &mut S,
    sink: &mut K,
) -> Status
    // Words that are not taken are refused, and nothing is read.
    ensures refuses { request_of (map string_bytes words.now) ≡ None →
        Ends RefusesWords (K.written sink.old) (K.written sink.new) result
        × (source.new ≡ source.old) }
    ensures words { result ≡ Status.BadWords → request_of (map string_bytes words.now) ≡ None }

    // What `basis`, `report`, `certify` and `bockstein` answer to the bytes that were read.
    ensures basis { request_of (map string_bytes words.now) ≡ Some Basis →
        EndsRead (InputAnswers (JobAnswers Form.Basis None)) (S.left source.old) (S.left source.new) (S.given source.old) (S.given source.new)
        (S.faults source.old) (S.faults source.new) (K.written sink.old) (K.written sink.new) result }
    ensures report { (limit : ℕ) → request_of (map string_bytes words.now) ≡ Some (Report limit) →
        EndsRead (InputAnswers (JobAnswers Form.Short (Some limit))) (S.left source.old) (S.left source.new) (S.given source.old) (S.given source.new)
        (S.faults source.old) (S.faults source.new) (K.written sink.old) (K.written sink.new) result }
    ensures certify { (limit : ℕ) → request_of (map string_bytes words.now) ≡ Some (Certify limit) →
        EndsRead (InputAnswers (JobAnswers Form.Certificate (Some limit))) (S.left source.old) (S.left source.new) (S.given source.old) (S.given source.new)
        (S.faults source.old) (S.faults source.new) (K.written sink.old) (K.written sink.new) result }
    ensures bockstein { request_of (map string_bytes words.now) ≡ Some Bockstein →
        EndsRead (InputAnswers BocksteinAnswers) (S.left source.old) (S.left source.new) (S.given source.old) (S.given source.new)
        (S.faults source.old) (S.faults source.new) (K.written sink.old) (K.written sink.new) result }

    // What `check` answers; it never says no to what `certify` writes.
    ensures check { request_of (map string_bytes words.now) ≡ Some Check →
        EndsRead CheckAnswers (S.left source.old) (S.left source.new) (S.given source.old) (S.given source.new)
        (S.faults source.old) (S.faults source.new) (K.written sink.old) (K.written sink.new) result }
    ensures complete { request_of (map string_bytes words.now) ≡ Some Check →
        IfSome (S.left source.old) (λ bytes. IsCertified bytes → IsNo result → ⊥) }

    // What `may` and `sample` answer; nothing is read.
    ensures may { (p d : ℕ) → request_of (map string_bytes words.now) ≡ Some (May p d) →
        Ends (MayAnswers p d) (K.written sink.old) (K.written sink.new) result
        × (source.new ≡ source.old) }
    ensures sample { (n p : ℕ) → request_of (map string_bytes words.now) ≡ Some (Sample n p) →
        Ends (SampleAnswers n p) (K.written sink.old) (K.written sink.new) result
        × (source.new ≡ source.old) }

    // Whatever the source tells, a refusal or a no is one line, and a run that reads and is done has read to the end.
    ensures refusal { WritesRefusal (K.written sink.old) (K.written sink.new) result }
    ensures whole { ReadsInput (request_of (map string_bytes words.now)) → result ≡ Status.Done → IsAtEnd (S.left source.new) }

    // Faults have their causes, and none is passed over.
    ensures read { result ≡ Status.ReadFault → Rose (S.faults source.old) (S.faults source.new) }
    ensures write { result ≡ Status.WriteFault → Rose (K.faults sink.old) (K.faults sink.new) }
    ensures reads { S.faults source.old < S.faults source.new →
        (result ≡ Status.ReadFault) ⊎ (result ≡ Status.WriteFault) }
    ensures writes { K.faults sink.old < K.faults sink.new → result ≡ Status.WriteFault }
{
    match request_of(alloc, words) {
        Err(_) => said(sink, Status::OutOfMemory, b"refused memory\n"),
        Ok(None) => said(sink, Status::BadWords, b"refused words\n"),
        Ok(Some(Request::Basis)) => reading_run(alloc, source, sink, Asked::OfJob(Wanted::Bases)),
        Ok(Some(Request::Report { limit })) => {
            let form = Form::Short;
            let wanted = Wanted::Report { form, limit };
            reading_run(alloc, source, sink, Asked::OfJob(wanted))
        }
        Ok(Some(Request::Certify { limit })) => {
            let form = Form::Certificate;
            let wanted = Wanted::Report { form, limit };
            reading_run(alloc, source, sink, Asked::OfJob(wanted))
        }
        Ok(Some(Request::Bockstein)) => {
            reading_run(alloc, source, sink, Asked::OfJob(Wanted::Bocksteins))
        }
        Ok(Some(Request::Check)) => reading_run(alloc, source, sink, Asked::Verdict),
        Ok(Some(Request::May { prime, degree })) => may_run(alloc, sink, prime, degree),
        Ok(Some(Request::Sample { number, prime })) => sample_run(alloc, sink, number, prime),
    }
}
