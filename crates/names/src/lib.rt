// Known field names and the mask of those that came: document 01, "Fields" and judgement 2, and
// document 02, K1 and K5.
#![tactic(auto)]

ghost use Rattle.std.specs.Prelude.{◌≡◌};
ghost use Rattle.octets.specs.Octets.{bytes, alike};
ghost use Rattle.message.specs.Known.{known_of, index_of};
ghost use Rattle.names.specs.Names.{bit_of};
ghost use Rattle.names.specs.Steps.{known_names, may_come};

use message::Known;

// A byte string is laid out where its function begins. These two are long enough to be laid out also when they are
// compiled, so they stand here, and not among those that are compared with every name.
fn is_active_request_id_list(n: &[u8]) -> bool
    ensures { result ≡ alike n.now (bytes "Active-Request-Id-List") }
{
    octets::alike(n, b"Active-Request-Id-List")
}

fn is_confidence_threshold(n: &[u8]) -> bool
    ensures { result ≡ alike n.now (bytes "Confidence-Threshold") }
{
    octets::alike(n, b"Confidence-Threshold")
}

// Which known name `n` is: its length says with which one or two to compare it. Where two are equally long, the one of
// document 01 is compared first, so that it costs no more than it did.
pub fn known(n: &[u8]) -> Known
    ensures { result ≡ known_of n.now }
{
    match n.len() {
        11 if octets::alike(n, b"Logging-Tag") => Known::LoggingTag,
        12 if octets::alike(n, b"Content-Type") => Known::ContentType,
        13 if octets::alike(n, b"Proxy-Sync-Id") => Known::ProxySyncId,
        13 if octets::alike(n, b"Fetch-Timeout") => Known::FetchTimeout,
        14 if octets::alike(n, b"Content-Length") => Known::ContentLength,
        16 if octets::alike(n, b"Kill-On-Barge-In") => Known::KillOnBargeIn,
        16 if octets::alike(n, b"No-Input-Timeout") => Known::NoInputTimeout,
        17 if octets::alike(n, b"Sensitivity-Level") => Known::SensitivityLevel,
        18 if octets::alike(n, b"Channel-Identifier") => Known::ChannelIdentifier,
        20 if is_confidence_threshold(n) => Known::ConfidenceThreshold,
        22 if is_active_request_id_list(n) => Known::ActiveRequestIdList,
        _ => Known::Unknown,
    }
}

// The names' bits in the mask; OTHER_NAME says that a field with another name came.
pub const CHANNEL_IDENTIFIER: u16 = 1;

pub const CONTENT_LENGTH: u16 = 2;

pub const CONTENT_TYPE: u16 = 4;

pub const ACTIVE_REQUEST_ID_LIST: u16 = 8;

pub const KILL_ON_BARGE_IN: u16 = 16;

pub const PROXY_SYNC_ID: u16 = 32;

pub const LOGGING_TAG: u16 = 64;

pub const OTHER_NAME: u16 = 128;

pub const CONFIDENCE_THRESHOLD: u16 = 256;

pub const FETCH_TIMEOUT: u16 = 512;

pub const NO_INPUT_TIMEOUT: u16 = 1024;

pub const SENSITIVITY_LEVEL: u16 = 2048;

// The names that act in SET-PARAMS and GET-PARAMS alone.
const ONLY_IN_PARAMS: u16 = FETCH_TIMEOUT | NO_INPUT_TIMEOUT | SENSITIVITY_LEVEL;

// The names that count as known in every message, and those that do in SET-PARAMS and GET-PARAMS.
const KNOWN_NAMES: u16 = CHANNEL_IDENTIFIER
    | CONTENT_LENGTH
    | CONTENT_TYPE
    | ACTIVE_REQUEST_ID_LIST
    | KILL_ON_BARGE_IN
    | PROXY_SYNC_ID
    | LOGGING_TAG
    | CONFIDENCE_THRESHOLD;

const KNOWN_IN_PARAMS: u16 = KNOWN_NAMES | ONLY_IN_PARAMS;

// The names that are ignored in SPEAK, in RECOGNIZE, in STOP and in any other method of document 01 and K1.
pub const IGNORED_IN_SPEAK: u16 = ACTIVE_REQUEST_ID_LIST
    | OTHER_NAME
    | CONFIDENCE_THRESHOLD
    | ONLY_IN_PARAMS;

pub const IGNORED_IN_RECOGNIZE: u16 = ACTIVE_REQUEST_ID_LIST
    | KILL_ON_BARGE_IN
    | OTHER_NAME
    | ONLY_IN_PARAMS;

pub const IGNORED_IN_STOP: u16 = CONTENT_TYPE
    | KILL_ON_BARGE_IN
    | OTHER_NAME
    | CONFIDENCE_THRESHOLD
    | ONLY_IN_PARAMS;

pub const IGNORED_ELSEWHERE: u16 = ACTIVE_REQUEST_ID_LIST | IGNORED_IN_STOP;

// In SET-PARAMS and GET-PARAMS: the settings of each kind of channel, and the names that may not stand beside them.
pub const SYNTHESIZER_SETTINGS: u16 = KILL_ON_BARGE_IN | FETCH_TIMEOUT;

pub const RECOGNIZER_SETTINGS: u16 = NO_INPUT_TIMEOUT | CONFIDENCE_THRESHOLD | SENSITIVITY_LEVEL;

pub const FORBIDDEN_ON_SYNTHESIZER: u16 = CONTENT_TYPE
    | ACTIVE_REQUEST_ID_LIST
    | OTHER_NAME
    | RECOGNIZER_SETTINGS;

pub const FORBIDDEN_ON_RECOGNIZER: u16 = CONTENT_TYPE
    | ACTIVE_REQUEST_ID_LIST
    | OTHER_NAME
    | SYNTHESIZER_SETTINGS;

// A name's number, and its bit in the mask.
pub fn index(k: Known) -> usize
    ensures { result ≡ index_of k }
{
    k as usize
}

// By a match: as a shift by the number it costs an instruction or two more for each field of a message.
pub fn bit(k: Known) -> u16
    ensures { result ≡ bit_of k }
{
    match k {
        Known::ChannelIdentifier => CHANNEL_IDENTIFIER,
        Known::ContentLength => CONTENT_LENGTH,
        Known::ContentType => CONTENT_TYPE,
        Known::ActiveRequestIdList => ACTIVE_REQUEST_ID_LIST,
        Known::KillOnBargeIn => KILL_ON_BARGE_IN,
        Known::ProxySyncId => PROXY_SYNC_ID,
        Known::LoggingTag => LOGGING_TAG,
        Known::Unknown => OTHER_NAME,
        Known::ConfidenceThreshold => CONFIDENCE_THRESHOLD,
        Known::FetchTimeout => FETCH_TIMEOUT,
        Known::NoInputTimeout => NO_INPUT_TIMEOUT,
        Known::SensitivityLevel => SENSITIVITY_LEVEL,
    }
}

// A message has at most so many fields.
pub const MOST_FIELDS: usize = 32;

// The bits of the names that count as known: `params` says that the message is a SET-PARAMS or a GET-PARAMS.
fn known_names(params: bool) -> u16
    ensures { result ≡ known_names params }
{
    if params { KNOWN_IN_PARAMS } else { KNOWN_NAMES }
}

// After `count` fields there may be one more, and its name `k`, if it counts as known, did not come yet.
pub fn may_come(params: bool, count: usize, mask: u16, k: Known) -> bool
    ensures { result ≡ may_come params count mask k }
{
    count < MOST_FIELDS && mask & (bit(k) & known_names(params)) == 0
}
