//! The words of a client.

ghost use Rattle.std.specs.Prelude.{◌≡◌, ◌≢◌, ◌<◌, ◌^◌, ◌↔◌, ℕ, ℤ, List, IsTrue, IfOk, IfSome, IfNone, IsErrOf, Some, None, Ok, decimal, [], ◌∷◌};
ghost use Rattle.std.specs.Fmt.{signed_decimal};
ghost use Rattle.std.specs.Int.Signed.{mag};
ghost use Rattle.std.specs.List.{list_all, All};
ghost use Rattle.ncc_pack.specs.declared.value.Value.TheVariants as v;
ghost use Rattle.ncc_pack.specs.Fits.{fits};
ghost use Rattle.ncc_driver.specs.Config.{config_fits};
ghost use Rattle.ncc_driver.specs.declared.config.SessionConfig.{SessionConfig};
ghost use Rattle.ncc_driver.specs.Work.{Job};
ghost use Rattle.ncc_client.specs.Words as w;

use itoa::Buffer;
use ncc_driver::{Auth, SessionConfig};
use ncc_pack::{MAX_SIZE, Memory, Text, Value, Values, Words};
use std::alloc::{AllocError, Global};
use thiserror::Error;

// The word that stands for none.
const ABSENT: &str = "-";

/// What words ask for, read.
#[derive(Drop)]
pub enum Task {
    /// To add to a counter.
    Add {
        /// The counter.
        key: Text,
        /// What is added.
        by: i64,
    },
    /// To set the value of a pair.
    Put {
        /// The pair.
        key: Text,
        /// The value.
        value: Text,
    },
    /// To read the value of a pair.
    Get {
        /// The pair.
        key: Text,
    },
}

/// What a client is to do.
#[derive(Drop)]
pub struct Order {
    /// What the session is made of.
    pub config: SessionConfig,
    /// Its one work.
    pub task: Task,
}

/// Why words give nothing to do.
#[derive(Clone, Copy, Debug, PartialEq, Eq, Error)]
pub enum WordsError {
    /// They ask for no work.
    #[error("the words ask for no work")]
    Bad,
    /// There was no memory.
    #[error("out of memory")]
    Memory,
}

impl From<AllocError> for WordsError {
    ghost use Rattle.ncc_client.specs.declared.words.WordsError.TheVariants.{Memory};

    ghost from_gives = { λ _ e. e ≡ Memory };

    fn from(_error: AllocError) -> WordsError {
        WordsError::Memory
    }
}

// ---- numbers

// The number that a word is a spelling of.
fn number_in(word: &str) -> Option<u64>
    ensures { (n : ℕ) → n < 2 ^ 64 → word.now ≡ decimal n → result ≡ Some n }
{
    word.parse().ok()
}

// The number that a word is the one spelling of. What `parse` takes may also have a sign or zeros in front.
fn number(word: &str) -> Option<u64>
    ensures some { IfSome result (λ n. word.now ≡ decimal n) }
    ensures none { IfNone result ((n : ℕ) → n < 2 ^ 64 → word.now ≢ decimal n) }
{
    let n = number_in(word)?;
    if Buffer::new().format(n) != word {
        return None;
    }
    Some(n)
}

fn signed_in(word: &str) -> Option<i64>
    ensures { (z : ℤ) → mag z < 2 ^ 63 → word.now ≡ signed_decimal z → result ≡ Some z }
{
    word.parse().ok()
}

// The same of a number with a sign.
fn signed(word: &str) -> Option<i64>
    ensures some { IfSome result (λ n. w.IsNumber word.now n) }
    ensures none { IfNone result ((z : ℤ) → w.IsNumber word.now z → ⊥) }
{
    let n = signed_in(word)?;
    if Buffer::new().format(n) != word {
        return None;
    }
    Some(n)
}

// ---- words

fn is_absent(word: &Text) -> bool
    ensures { result ≡ w.is_absent word.now }
{
    word.as_str() == ABSENT
}

#[tactic(auto, using(crate::proofs::Named::short_fits))]
fn is_short(word: &Text) -> bool
    ensures exact { result ≡ w.is_short word.now }
    ensures fits { IsTrue result → w.fits_text word.now }
{
    word.as_str().len() <= MAX_SIZE
}

fn are_short(words: &[Text]) -> bool
    ensures exact { result ≡ list_all w.is_short words.now }
    ensures fit { IsTrue result → All w.fits_text words.now }
{
    for word in words {
        if !is_short(word) {
            return false;
        }
    }
    true
}

fn seed_in(word: &Text) -> Option<u64>
    ensures some { IfSome result (λ seed. w.IsSeed word.now seed) }
    ensures none { IfNone result ((n : ℕ) → w.IsSeed word.now n → ⊥) }
{
    if is_absent(word) {
        return Some(0);
    }
    number(word.as_str())
}

fn login(user: &Text, password: &Text) -> Result<Auth, Memory>
    requires both { w.is_absent user.now ≡ w.is_absent password.now }
    ensures { IfOk result (λ auth. w.login_of user.now password.now ≡ Some auth) }
{
    if is_absent(user) {
        return Ok(Auth::Nobody);
    }
    Ok(Auth::Basic {
        user: user.copy()?,
        password: password.copy()?,
    })
}

fn bookmarks_in(alloc: Global, word: &Text) -> Result<Values, Memory>
    ensures { IfOk result (λ bookmarks. bookmarks ≡ w.bookmarks_of word.now) }
{
    let mut bookmarks = Values::new(alloc);
    if !is_absent(word) {
        bookmarks.push(Value::Text(word.copy()?))?;
    }
    Ok(bookmarks)
}

fn routers_in(alloc: Global, word: &Text) -> Result<Values, Memory>
    ensures { IfOk result (λ routers. routers ≡ v.Text word.now ∷ []) }
{
    let mut routers = Values::new(alloc);
    routers.push(Value::Text(word.copy()?))?;
    Ok(routers)
}

// ---- the work

fn pair_task(verb: &Text, key: &Text) -> Result<Task, WordsError>
    requires key_fits { w.fits_text key.now }
    ensures ok { IfOk result (λ task. w.IsForm (verb.now ∷ key.now ∷ []) (w.job_of task)) }
    ensures fits { IfOk result (λ task. w.TaskFits task) }
    ensures bad { IsErrOf result WordsError.Bad → (job : Job) → w.IsForm (verb.now ∷ key.now ∷ []) job → ⊥ }
    ensures memory { IsErrOf result WordsError.Memory → (job : Job) × w.IsForm (verb.now ∷ key.now ∷ []) job }
{
    match verb.as_str() {
        "get" => Ok(Task::Get { key: key.copy()? }),
        _ => Err(WordsError::Bad),
    }
}

#[tactic(auto, using(crate::proofs::Named::adds_some))]
fn add_task(key: &Text, word: &Text) -> Result<Task, WordsError>
    requires key_fits { w.fits_text key.now }
    ensures ok { IfOk result (λ task. w.Adds key.now word.now (w.job_of task)) }
    ensures fits { IfOk result (λ task. w.TaskFits task) }
    ensures bad { IsErrOf result WordsError.Bad → (job : Job) → w.Adds key.now word.now job → ⊥ }
    ensures memory { IsErrOf result WordsError.Memory → (job : Job) × w.Adds key.now word.now job }
{
    let Some(by) = signed(word.as_str()) else {
        return Err(WordsError::Bad);
    };
    Ok(Task::Add {
        key: key.copy()?,
        by,
    })
}

fn put_task(key: &Text, value: &Text) -> Result<Task, Memory>
    requires key_fits { w.fits_text key.now }
    requires value_fits { w.fits_text value.now }
    ensures ok { IfOk result (λ task. w.Puts key.now value.now (w.job_of task)) }
    ensures fits { IfOk result (λ task. w.TaskFits task) }
{
    Ok(Task::Put {
        key: key.copy()?,
        value: value.copy()?,
    })
}

fn triple_task(verb: &Text, key: &Text, more: &Text) -> Result<Task, WordsError>
    requires key_fits { w.fits_text key.now }
    requires more_fits { w.fits_text more.now }
    ensures ok { IfOk result (λ task. w.IsForm (verb.now ∷ key.now ∷ more.now ∷ []) (w.job_of task)) }
    ensures fits { IfOk result (λ task. w.TaskFits task) }
    ensures bad { IsErrOf result WordsError.Bad → (job : Job) → w.IsForm (verb.now ∷ key.now ∷ more.now ∷ []) job → ⊥ }
    ensures memory { IsErrOf result WordsError.Memory → (job : Job) × w.IsForm (verb.now ∷ key.now ∷ more.now ∷ []) job }
{
    match verb.as_str() {
        "add" => add_task(key, more),
        "put" => Ok(put_task(key, more)?),
        _ => Err(WordsError::Bad),
    }
}

fn task_in(form: &[Text]) -> Result<Task, WordsError>
    requires fit { All w.fits_text form.now }
    ensures ok { IfOk result (λ task. w.IsForm form.now (w.job_of task)) }
    ensures fits { IfOk result (λ task. w.TaskFits task) }
    ensures bad { IsErrOf result WordsError.Bad → (job : Job) → w.IsForm form.now job → ⊥ }
    ensures memory { IsErrOf result WordsError.Memory → (job : Job) × w.IsForm form.now job }
{
    match form {
        [verb, key] => pair_task(verb, key),
        [verb, key, more] => triple_task(verb, key, more),
        _ => Err(WordsError::Bad),
    }
}

// ---- all words

#[tactic(auto, using(crate::proofs::Named::config_good))]
fn config_in(
    alloc: Global,
    user: &Text,
    password: &Text,
    bookmark: &Text,
    seed: u64,
    router: &Text,
) -> Result<SessionConfig, Memory>
    requires both { w.is_absent user.now ≡ w.is_absent password.now }
    requires user_fits { w.fits_text user.now }
    requires password_fits { w.fits_text password.now }
    requires bookmark_fits { w.fits_text bookmark.now }
    requires router_fits { w.fits_text router.now }
    ensures login { IfOk result (λ config. w.login_of user.now password.now ≡ Some config.auth) }
    ensures bookmarks { IfOk result (λ config. config.bookmarks ≡ w.bookmarks_of bookmark.now) }
    ensures seed { IfOk result (λ config. config.seed ≡ seed) }
    ensures routers { IfOk result (λ config. config.routers ≡ v.Text router.now ∷ []) }
    ensures fits { IfOk result (λ config. IsTrue (config_fits config)) }
{
    Ok(SessionConfig {
        routers: routers_in(alloc, router)?,
        auth: login(user, password)?,
        seed,
        bookmarks: bookmarks_in(alloc, bookmark)?,
    })
}

/// What these words ask for. Whether they ask for work is seen before any memory is wanted.
pub fn order_in(alloc: Global, words: &Words) -> Result<Order, WordsError>
    ensures ok { IfOk result (λ order. w.Asks words.now order.config (w.job_of order.task)) }
    ensures fits { IfOk result (λ order. IsTrue (config_fits order.config)) }
    ensures task_fits { IfOk result (λ order. w.TaskFits order.task) }
    ensures bad { IsErrOf result WordsError.Bad → (config : SessionConfig) (job : Job) → w.Asks words.now config job → ⊥ }
    ensures memory { IsErrOf result WordsError.Memory → w.AsksSome words.now }
{
    let [user, password, bookmark, seed, router, form @ ..] = words.as_slice() else {
        return Err(WordsError::Bad);
    };
    if !are_short(words.as_slice()) || is_absent(user) != is_absent(password) {
        return Err(WordsError::Bad);
    }
    let Some(seed) = seed_in(seed) else {
        return Err(WordsError::Bad);
    };
    let task = task_in(form)?;
    let config = config_in(alloc, user, password, bookmark, seed, router)?;
    Ok(Order { config, task })
}
