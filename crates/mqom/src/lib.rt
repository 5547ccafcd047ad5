// MQOM v2.1, set MQOM2-L1-gf16-fast-r3: what a user calls. Each call is lent its outputs and a workspace at exactly their length and answers
// Ok, or a refusal; of those that apply the one with the lowest number. With numbers 1, 2 and 3 nothing is touched. Else the workspace is all
// zero afterwards, and outputs are written with Ok alone. All randomness is an input: a key seed, a salt and a master seed must be drawn anew,
// at random, for each use.
#![tactic(auto)]

ghost use Rattle.std.specs.Prelude.{◌≡◌, Err};
ghost use Rattle.signer.specs.Written.{number_of};
ghost use Rattle.mqom.specs.Answer.{number_of_answer, number_of_refusal};
ghost use Rattle.mqom.specs.Calls.{MakesKeys, SignsMessage, ChecksSignature};

pub mod fields;

// Lengths in bytes; of a message the most.

pub const KEY_SEED: usize = 32;

pub const PUBLIC_KEY: usize = 60;

pub const SECRET_KEY: usize = 88;

pub const SALT: usize = 16;

pub const MASTER_SEED: usize = 16;

pub const SIGNATURE: usize = 3484;

pub const WORKSPACE: usize = 65536;

pub const MESSAGE: usize = 65536;

/// The most tries that may be allowed.
pub const TRIES: u32 = 1048576;

/// Why a call did not do what it was asked for, with document 01's number.
#[derive(Clone, Copy, Debug, PartialEq, Eq)]
pub enum Refusal {
    /// Number 1: a fixed-length input, an output or the workspace has another length. Nothing was looked at, so this is no verdict.
    Length,
    /// Number 2: the message is above 65,536 bytes. Sign its parts, or a list of their hashes.
    Message,
    /// Number 3: the allowed tries are 0 or above 1,048,576.
    Tries,
    /// Number 4: the secret solution does not satisfy the equations that the secret key carries. The key is damaged: don't sign with it.
    Unsatisfied,
    /// Number 5: none of the allowed tries passes. More of them, up to the limit, may.
    Spent,
    /// Number 6: the specification's verification rejects. The message, the signature or the key is not the one that belongs here.
    Rejected,
}

impl From<Refusal> for u8 {
    ghost from_gives = { λ refusal n. n ≡ number_of_refusal refusal };

    fn from(refusal: Refusal) -> u8 {
        match refusal {
            Refusal::Length => 1,
            Refusal::Message => 2,
            Refusal::Tries => 3,
            Refusal::Unsatisfied => 4,
            Refusal::Spent => 5,
            Refusal::Rejected => 6,
        }
    }
}

impl From<signer::Refused> for Refusal {
    ghost from_gives = { λ refused refusal. number_of_refusal refusal ≡ number_of (Err refused) };

    fn from(refused: signer::Refused) -> Refusal {
        match refused {
            signer::Refused::Unsatisfied => Refusal::Unsatisfied,
            signer::Refused::Spent => Refusal::Spent,
        }
    }
}

/// The number of an answer: 0 where it is Ok, else the refusal's.
// cells has one like it: the two crates know nothing of each other, and the enums are two.
pub fn number(answer: Result<(), Refusal>) -> u8
    ensures { result ≡ number_of_answer answer }
{
    match answer {
        Ok(()) => 0,
        Err(refusal) => u8::from(refusal),
    }
}

/// Key generation.
///
/// `seed`: a key seed of 32 bytes.
/// `pk`, `sk`: lent at 60 and 88 bytes. With Ok they hold the public key and the secret key afterwards, else they are untouched.
/// `work`: lent at 65,536 bytes. With Ok it is all zero afterwards, else untouched.
///
/// Refused with `Length` where `seed`, `pk`, `sk` or `work` has another length, and with nothing else.
pub fn make_keys(seed: &[u8], pk: &mut [u8], sk: &mut [u8], work: &mut [u8]) -> Result<(), Refusal>
    ensures { MakesKeys seed.now pk.old sk.old work.old (number_of_answer result) pk.new sk.new work.new }
{
    let seed = seed.as_array::<KEY_SEED>().ok_or(Refusal::Length)?;
    let pk = pk.as_mut_array::<PUBLIC_KEY>().ok_or(Refusal::Length)?;
    let sk = sk.as_mut_array::<SECRET_KEY>().ok_or(Refusal::Length)?;
    let work = work.as_mut_array::<WORKSPACE>().ok_or(Refusal::Length)?;
    keygen::make_keys(seed, pk, sk, work);
    octets::clear(work);
    Ok(())
}

/// Signing.
///
/// `sk`, `msg`, `salt`, `mseed`: a secret key of 88 bytes, a message of 0 to 65,536, a salt and a master seed of 16 each.
/// `tries`: how many nonces may be tested, 1 to 1,048,576.
/// `sig`: lent at 3484 bytes. With Ok it holds the signature afterwards, else it is untouched.
/// `work`: lent at 65,536 bytes. With `Length`, `Message` and `Tries` it is untouched, else all zero afterwards.
///
/// Of the refusals that apply the first is given: `Length` (`sk`, `salt`, `mseed`, `sig` or `work`), `Message`, `Tries`, `Unsatisfied`,
/// `Spent`.
pub fn sign(
    sk: &[u8],
    msg: &[u8],
    salt: &[u8],
    mseed: &[u8],
    tries: u32,
    sig: &mut [u8],
    work: &mut [u8],
) -> Result<(), Refusal>
    ensures { SignsMessage sk.now msg.now salt.now mseed.now tries sig.old work.old (number_of_answer result) sig.new work.new }
{
    let sk = sk.as_array::<SECRET_KEY>().ok_or(Refusal::Length)?;
    let salt = salt.as_array::<SALT>().ok_or(Refusal::Length)?;
    let mseed = mseed.as_array::<MASTER_SEED>().ok_or(Refusal::Length)?;
    let sig = sig.as_mut_array::<SIGNATURE>().ok_or(Refusal::Length)?;
    let work = work.as_mut_array::<WORKSPACE>().ok_or(Refusal::Length)?;
    if msg.len() > MESSAGE {
        return Err(Refusal::Message);
    }
    if tries == 0 || tries > TRIES {
        return Err(Refusal::Tries);
    }
    let worked = signer::sign(sk, msg, salt, mseed, tries, sig, work);
    octets::clear(work);
    worked?;
    Ok(())
}

/// Checking. Ok says that the signature is accepted.
///
/// `pk`, `msg`, `sig`: a public key of 60 bytes, a message of 0 to 65,536, a signature of 3484.
/// `work`: lent at 65,536 bytes. With `Length` and `Message` it is untouched, else all zero afterwards.
///
/// Of the refusals that apply the first is given: `Length` (`pk`, `sig` or `work`), `Message`, `Rejected`.
pub fn check(pk: &[u8], msg: &[u8], sig: &[u8], work: &mut [u8]) -> Result<(), Refusal>
    ensures { ChecksSignature pk.now msg.now sig.now work.old (number_of_answer result) work.new }
{
    let pk = pk.as_array::<PUBLIC_KEY>().ok_or(Refusal::Length)?;
    let sig = sig.as_array::<SIGNATURE>().ok_or(Refusal::Length)?;
    let work = work.as_mut_array::<WORKSPACE>().ok_or(Refusal::Length)?;
    if msg.len() > MESSAGE {
        return Err(Refusal::Message);
    }
    let accepted = checker::verify(pk, msg, sig, work);
    octets::clear(work);
    if accepted {
        Ok(())
    } else {
        Err(Refusal::Rejected)
    }
}
