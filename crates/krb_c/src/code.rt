// Made from interface.toml by `make generate`. Don't edit this file.

//! The codes that calls answer. The header has them under the same names. A number never changes: a
//! cause that comes between two others gets one of the numbers between theirs.

pub(crate) const OK: u32 = 0;

pub(crate) const GO_ON: u32 = 1;

pub(crate) const ASK_STORE: u32 = 2;

pub(crate) const MESSAGE_TYPE: u32 = 100;

pub(crate) const MALFORMED: u32 = 110;

pub(crate) const USER_TO_USER: u32 = 120;

pub(crate) const TICKET_ETYPE: u32 = 130;

pub(crate) const NOT_US: u32 = 140;

pub(crate) const NO_KEY: u32 = 150;

pub(crate) const BAD_KEY_VERSION: u32 = 160;

pub(crate) const TICKET_INTEGRITY: u32 = 170;

pub(crate) const SESSION_KEY: u32 = 180;

pub(crate) const AUTHENTICATOR_INTEGRITY: u32 = 190;

pub(crate) const BAD_MATCH: u32 = 200;

pub(crate) const SKEW: u32 = 210;

pub(crate) const JUST_STARTED: u32 = 215;

pub(crate) const REPEAT: u32 = 220;

pub(crate) const NOT_YET_VALID: u32 = 230;

pub(crate) const EXPIRED: u32 = 240;

pub(crate) const TRANSITED: u32 = 250;

pub(crate) const AUTHORIZATION: u32 = 260;

pub(crate) const ANONYMOUS_CLIENT: u32 = 280;

pub(crate) const FOREIGN_REALM: u32 = 290;

pub(crate) const CHANNEL_BINDINGS: u32 = 300;

pub(crate) const STORE_FAILED: u32 = 310;

pub(crate) const LIST_MIC_MISSING: u32 = 320;

pub(crate) const LIST_MIC_WRONG: u32 = 321;

pub(crate) const LIST_MIC_OTHER_KEY: u32 = 322;

pub(crate) const LIST_KEY_TYPE: u32 = 323;

pub(crate) const OUT_OF_MEMORY: u32 = 400;

pub(crate) const SHORT_BUFFER: u32 = 401;

pub(crate) const EMPTY_HANDLE: u32 = 402;

pub(crate) const NOTHING_THERE: u32 = 403;

pub(crate) const TOO_LONG: u32 = 404;

pub(crate) const FULL: u32 = 405;

pub(crate) const BAD_SKEW: u32 = 410;

pub(crate) const BAD_MOMENT: u32 = 411;

pub(crate) const BAD_CONFOUNDER: u32 = 412;

pub(crate) const KEY_TYPE: u32 = 413;

pub(crate) const KEY_LENGTH: u32 = 414;

pub(crate) const NO_CODE: u32 = 415;

pub(crate) const BAD_OPTIONS: u32 = 416;

pub(crate) const NO_NAME: u32 = 417;

pub(crate) const NO_START: u32 = 418;

pub(crate) const EARLY_START: u32 = 419;

pub(crate) const BAD_BINDINGS: u32 = 420;

pub(crate) const BAD_RANDOM: u32 = 421;

pub(crate) const BAD_SAID: u32 = 422;

pub(crate) const NOT_WAITING: u32 = 423;

pub(crate) const SHARED: u32 = 424;

pub(crate) const FILE_VERSION: u32 = 500;

pub(crate) const FILE_HEADER: u32 = 501;

pub(crate) const FILE_TRUNCATED: u32 = 502;

pub(crate) const FILE_BAD_ITEM: u32 = 503;

pub(crate) const NO_SUCH_ENTRY: u32 = 504;

pub(crate) const NOT_READ: u32 = 505;

pub(crate) const NO_CREDENTIAL: u32 = 600;

pub(crate) const NO_USABLE_KEY: u32 = 601;

pub(crate) const CREDENTIAL_EXPIRED: u32 = 602;

pub(crate) const BAD_TICKET: u32 = 603;

pub(crate) const REPLY_TYPE: u32 = 700;

pub(crate) const REPLY_MALFORMED: u32 = 701;

pub(crate) const REPLY_INTEGRITY: u32 = 702;

pub(crate) const REPLY_MISMATCH: u32 = 703;

pub(crate) const ERROR_MALFORMED: u32 = 704;

pub(crate) const TEXT_SHORT: u32 = 800;

pub(crate) const TEXT_INTEGRITY: u32 = 801;

pub(crate) const BAD_TEXT: u32 = 810;

pub(crate) const NO_REALM: u32 = 811;

pub(crate) const NOT_UTF8: u32 = 812;

pub(crate) const NOT_A_TOKEN: u32 = 900;

pub(crate) const TOKEN_MALFORMED: u32 = 901;

pub(crate) const TOKEN_CONTINUES: u32 = 902;

pub(crate) const TOKEN_EMPTY: u32 = 903;

pub(crate) const TOKEN_ID: u32 = 904;

pub(crate) const TOKEN_UNFRAMED: u32 = 905;

pub(crate) const OTHER_MECHANISM: u32 = 910;

pub(crate) const NTLM: u32 = 911;

pub(crate) const IAKERB: u32 = 912;

pub(crate) const NESTED_NEGOTIATION: u32 = 913;

pub(crate) const BAD_MECHANISM: u32 = 920;

pub(crate) const BAD_VERDICT: u32 = 921;

pub(crate) const BAD_NEGOTIATION: u32 = 922;

pub(crate) const NEGOTIATION_OVER: u32 = 923;

pub(crate) const CONTEXT_TRUNCATED: u32 = 930;

pub(crate) const CONTEXT_BINDINGS: u32 = 931;

pub(crate) const CONTEXT_DELEGATION: u32 = 932;

pub(crate) const MESSAGE_DEFECTIVE: u32 = 940;

pub(crate) const MESSAGE_DIRECTION: u32 = 941;

pub(crate) const MESSAGE_OTHER_KEY: u32 = 942;

pub(crate) const MESSAGE_INTEGRITY: u32 = 943;

pub(crate) const MESSAGE_GAP: u32 = 944;

pub(crate) const MESSAGE_REPEAT: u32 = 946;

pub(crate) const MESSAGE_OLD: u32 = 947;

pub(crate) const NUMBERS_USED_UP: u32 = 948;

pub(crate) const BAD_ROLE: u32 = 949;
