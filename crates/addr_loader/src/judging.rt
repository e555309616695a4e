// One fetch of a bundle, and what its bytes are judged as while they arrive: size, digest, file, table, in this order.
ghost use Rattle.std.specs.Prelude.{◌≡◌, ℕ, List, IfOk, Ok, length};
ghost use Rattle.std.specs.Option.{option_map_or};
ghost use Rattle.addr_base.specs.declared.cause.Cause.TheVariants as causes;
ghost use Rattle.addr_base.specs.declared.cause.Layer.TheVariants as layers;
ghost use Rattle.addr_unityfs.specs.Arriving.{Took, total_of, read_with, IsArrived};
ghost use Rattle.addr_unityfs.specs.Faults.{bundle_read, fault_number};
ghost use Rattle.addr_unityfs.specs.Format.{IsBundle};
ghost use Rattle.addr_cab.specs.Lookup.{Fits};
ghost use Rattle.addr_cab.specs.Numbers as cab;
ghost use Rattle.addr_fetch.specs.declared.fetch.Fetched.{Fetched as Answer};
ghost use Rattle.addr_loader.specs.Chain.{EndsAs, fetch_limit};
ghost use Rattle.addr_loader.specs.Judged.{JudgedAs, ReadsImage, EndsPoured, IsCounted, IsWhole};
ghost use Rattle.addr_loader.specs.Works.{ended_cause};

use crate::job::Job;
use addr_base::{Cause, Digest, Items, Layer};
use addr_cab::{Cab, CabErr, read_cab};
use addr_fetch::{Fetch, Poured};
use addr_unityfs::{Arrived, Bundle, BundleReader, FsErr, bundle_laws};
use std::alloc::Global;

/// The most bytes that are fetched of one bundle.
const MOST_BYTES: u64 = 1_073_741_824;

/// Fetches a bundle once, and gives its image or the cause why there is none.
pub fn fetch_job<F: Fetch>(alloc: Global, fetch: &mut F, job: &Job) -> Result<Cab, Cause>
    ensures fetched { (answer : Answer) × F.gives fetch.old job.now.id (fetch_limit job.now.size) answer fetch.new
        × EndsAs job.now.size job.now.digest answer (ended_cause result) }
    ensures fits { IfOk result (λ image. Fits image job.now.size job.now.digest) }
{
    let mut reader = BundleReader::begin(alloc, job.size);
    let limit = job.size.min(MOST_BYTES);
    let poured = fetch.fetch_to(alloc, job.id.as_str(), limit, &mut reader);
    ended(alloc, job, poured, reader)
}

/// How a fetch ends that poured into the reader, with that answer.
fn ended(alloc: Global, job: &Job, poured: Poured, reader: BundleReader) -> Result<Cab, Cause>
    requires total { total_of reader ≡ job.now.size }
    requires took { (bytes : List ℕ) × Took reader bytes }
    ensures cause { (bytes : List ℕ) → Took reader bytes → IsCounted poured bytes
        → EndsPoured job.now.size job.now.digest bytes poured (ended_cause result) }
    ensures fits { IfOk result (λ image. Fits image job.now.size job.now.digest) }
{
    match poured {
        Poured::Whole(count) => judged(alloc, job, count, reader),
        Poured::Missing => Err(Cause::Missing),
        Poured::Refused(code) => Err(Cause::Refused(code)),
        Poured::TooLong(length) => Err(Cause::TooLong(length)),
        Poured::Fault(count) => Err(Cause::Fault(count)),
        Poured::NoMemory => Err(Cause::NoMemory),
    }
}

/// What the bytes that came are judged as; `got` is their number.
fn judged(alloc: Global, job: &Job, got: u64, reader: BundleReader) -> Result<Cab, Cause>
    requires total { total_of reader ≡ job.now.size }
    requires took { (bytes : List ℕ) × Took reader bytes }
    ensures cause { (bytes : List ℕ) → Took reader bytes → length bytes ≡ got
        → JudgedAs job.now.size job.now.digest bytes (ended_cause result) }
    ensures fits { IfOk result (λ image. Fits image job.now.size job.now.digest) }
{
    match reader.finish() {
        Ok(arrived) => arrived_image(alloc, job, got, arrived),
        Err(_) => Err(Cause::NoMemory),
    }
}

fn arrived_image(alloc: Global, job: &Job, got: u64, arrived: Arrived) -> Result<Cab, Cause>
    requires arrived { (bytes : List ℕ) × IsArrived job.now.size bytes arrived }
    ensures cause { (bytes : List ℕ) → IsArrived job.now.size bytes arrived → length bytes ≡ got
        → JudgedAs job.now.size job.now.digest bytes (ended_cause result) }
    ensures fits { IfOk result (λ image. Fits image job.now.size job.now.digest) }
{
    match arrived {
        Arrived::Size { .. } => Err(Cause::BadSize {
            want: job.size,
            got,
        }),
        Arrived::File { digest, read } => whole_image(alloc, job, digest, read),
    }
}

fn whole_image(
    alloc: Global,
    job: &Job,
    digest: Digest,
    read: Result<(Items<u8>, Bundle), FsErr>,
) -> Result<Cab, Cause>
    requires whole { (bytes : List ℕ) × IsWhole job.now.size bytes digest read }
    ensures cause { (bytes : List ℕ) → IsWhole job.now.size bytes digest read
        → JudgedAs job.now.size job.now.digest bytes (ended_cause result) }
    ensures fits { IfOk result (λ image. Fits image job.now.size job.now.digest) }
{
    if digest != job.digest {
        return Err(Cause::BadDigest {
            want: job.digest,
            got: digest,
        });
    }
    read_image(alloc, read)
}

fn read_image(alloc: Global, read: Result<(Items<u8>, Bundle), FsErr>) -> Result<Cab, Cause>
    requires { (bytes : List ℕ) × (read ≡ read_with bytes (bundle_read bytes)) }
    ensures { (bytes : List ℕ) → read ≡ read_with bytes (bundle_read bytes) → ReadsImage bytes result }
{
    match read {
        Ok((bytes, bundle)) => table_image(alloc, bytes, &bundle),
        Err(e) => Err(fs_cause(e)),
    }
}

fn table_image(alloc: Global, bytes: Items<u8>, bundle: &Bundle) -> Result<Cab, Cause>
    requires { bundle_read bytes ≡ Ok bundle.now }
    ensures { ReadsImage bytes result }
{
    let file = bytes.into_vec();
    are_bundle(&file, bundle);
    match read_cab(alloc, file, bundle) {
        Ok(image) => Ok(image),
        Err(e) => Err(cab_cause(e)),
    }
}

/// What a file is read as, it is.
fn are_bundle(file: &[u8], bundle: &Bundle)
    requires { bundle_read file.now ≡ Ok bundle.now }
    ensures { IsBundle file.now bundle.now }
{
    bundle_laws();
}

fn fs_cause(e: FsErr) -> Cause
    ensures { result ≡ option_map_or (λ n. causes.BadImage layers.UnityFs n) (fault_number e) causes.NoMemory }
{
    match e.number() {
        Some(number) => Cause::BadImage {
            layer: Layer::UnityFs,
            number,
        },
        None => Cause::NoMemory,
    }
}

fn cab_cause(e: CabErr) -> Cause
    ensures { result ≡ option_map_or (λ n. causes.BadImage layers.Cab n) (cab.fault_number e) causes.NoMemory }
{
    match e.number() {
        Some(number) => Cause::BadImage {
            layer: Layer::Cab,
            number,
        },
        None => Cause::NoMemory,
    }
}
