//! The names of error codes.

ghost use Rattle.std.specs.Prelude.{◌≡◌};
ghost use Rattle.std.specs.Option.{option_map};
ghost use Rattle.krb_explain.specs.Named.{first_name};
ghost use Rattle.krb_explain.specs.Registry.{error_name, kdc_name, account_name, exchange_name, later_name};

use crate::named::first_name;
use krb_readable::{Named, name_in};

static KDC_CODES: [Named; 15] = [
    Named(0, "KDC_ERR_NONE"),
    Named(1, "KDC_ERR_NAME_EXP"),
    Named(2, "KDC_ERR_SERVICE_EXP"),
    Named(3, "KDC_ERR_BAD_PVNO"),
    Named(4, "KDC_ERR_C_OLD_MAST_KVNO"),
    Named(5, "KDC_ERR_S_OLD_MAST_KVNO"),
    Named(6, "KDC_ERR_C_PRINCIPAL_UNKNOWN"),
    Named(7, "KDC_ERR_S_PRINCIPAL_UNKNOWN"),
    Named(8, "KDC_ERR_PRINCIPAL_NOT_UNIQUE"),
    Named(9, "KDC_ERR_NULL_KEY"),
    Named(10, "KDC_ERR_CANNOT_POSTDATE"),
    Named(11, "KDC_ERR_NEVER_VALID"),
    Named(12, "KDC_ERR_POLICY"),
    Named(13, "KDC_ERR_BADOPTION"),
    Named(14, "KDC_ERR_ETYPE_NOSUPP"),
];

static ACCOUNT_CODES: [Named; 15] = [
    Named(15, "KDC_ERR_SUMTYPE_NOSUPP"),
    Named(16, "KDC_ERR_PADATA_TYPE_NOSUPP"),
    Named(17, "KDC_ERR_TRTYPE_NOSUPP"),
    Named(18, "KDC_ERR_CLIENT_REVOKED"),
    Named(19, "KDC_ERR_SERVICE_REVOKED"),
    Named(20, "KDC_ERR_TGT_REVOKED"),
    Named(21, "KDC_ERR_CLIENT_NOTYET"),
    Named(22, "KDC_ERR_SERVICE_NOTYET"),
    Named(23, "KDC_ERR_KEY_EXPIRED"),
    Named(24, "KDC_ERR_PREAUTH_FAILED"),
    Named(25, "KDC_ERR_PREAUTH_REQUIRED"),
    Named(26, "KDC_ERR_SERVER_NOMATCH"),
    Named(27, "KDC_ERR_MUST_USE_USER2USER"),
    Named(28, "KDC_ERR_PATH_NOT_ACCEPTED"),
    Named(29, "KDC_ERR_SVC_UNAVAILABLE"),
];

static EXCHANGE_CODES: [Named; 21] = [
    Named(31, "KRB_AP_ERR_BAD_INTEGRITY"),
    Named(32, "KRB_AP_ERR_TKT_EXPIRED"),
    Named(33, "KRB_AP_ERR_TKT_NYV"),
    Named(34, "KRB_AP_ERR_REPEAT"),
    Named(35, "KRB_AP_ERR_NOT_US"),
    Named(36, "KRB_AP_ERR_BADMATCH"),
    Named(37, "KRB_AP_ERR_SKEW"),
    Named(38, "KRB_AP_ERR_BADADDR"),
    Named(39, "KRB_AP_ERR_BADVERSION"),
    Named(40, "KRB_AP_ERR_MSG_TYPE"),
    Named(41, "KRB_AP_ERR_MODIFIED"),
    Named(42, "KRB_AP_ERR_BADORDER"),
    Named(44, "KRB_AP_ERR_BADKEYVER"),
    Named(45, "KRB_AP_ERR_NOKEY"),
    Named(46, "KRB_AP_ERR_MUT_FAIL"),
    Named(47, "KRB_AP_ERR_BADDIRECTION"),
    Named(48, "KRB_AP_ERR_METHOD"),
    Named(49, "KRB_AP_ERR_BADSEQ"),
    Named(50, "KRB_AP_ERR_INAPP_CKSUM"),
    Named(51, "KRB_AP_PATH_NOT_ACCEPTED"),
    Named(52, "KRB_ERR_RESPONSE_TOO_BIG"),
];

static LATER_CODES: [Named; 17] = [
    Named(60, "KRB_ERR_GENERIC"),
    Named(61, "KRB_ERR_FIELD_TOOLONG"),
    Named(62, "KDC_ERROR_CLIENT_NOT_TRUSTED"),
    Named(63, "KDC_ERROR_KDC_NOT_TRUSTED"),
    Named(64, "KDC_ERROR_INVALID_SIG"),
    Named(65, "KDC_ERR_KEY_TOO_WEAK"),
    Named(66, "KDC_ERR_CERTIFICATE_MISMATCH"),
    Named(67, "KRB_AP_ERR_NO_TGT"),
    Named(68, "KDC_ERR_WRONG_REALM"),
    Named(69, "KRB_AP_ERR_USER_TO_USER_REQUIRED"),
    Named(70, "KDC_ERR_CANT_VERIFY_CERTIFICATE"),
    Named(71, "KDC_ERR_INVALID_CERTIFICATE"),
    Named(72, "KDC_ERR_REVOKED_CERTIFICATE"),
    Named(73, "KDC_ERR_REVOCATION_STATUS_UNKNOWN"),
    Named(74, "KDC_ERR_REVOCATION_STATUS_UNAVAILABLE"),
    Named(75, "KDC_ERR_CLIENT_NAME_MISMATCH"),
    Named(76, "KDC_ERR_KDC_NAME_MISMATCH"),
];

/// Returns the name of an error code (RFC 4120, section 7.5.9), if it has one.
pub fn error_name(code: i32) -> Option<&'static str>
    ensures { option_map (λ name. name.now) result ≡ error_name code }
{
    let of_kdc = first_name(kdc_name(code), account_name(code));
    let of_service = first_name(exchange_name(code), later_name(code));
    first_name(of_kdc, of_service)
}

#[tactic(auto, unfolding(crate::specs::Registry::kdc_name))]
fn kdc_name(code: i32) -> Option<&'static str>
    ensures { option_map (λ name. name.now) result ≡ kdc_name code }
{
    name_in(&KDC_CODES, code)
}

#[tactic(auto, unfolding(crate::specs::Registry::account_name))]
fn account_name(code: i32) -> Option<&'static str>
    ensures { option_map (λ name. name.now) result ≡ account_name code }
{
    name_in(&ACCOUNT_CODES, code)
}

#[tactic(auto, unfolding(crate::specs::Registry::exchange_name))]
fn exchange_name(code: i32) -> Option<&'static str>
    ensures { option_map (λ name. name.now) result ≡ exchange_name code }
{
    name_in(&EXCHANGE_CODES, code)
}

#[tactic(auto, unfolding(crate::specs::Registry::later_name))]
fn later_name(code: i32) -> Option<&'static str>
    ensures { option_map (λ name. name.now) result ≡ later_name code }
{
    name_in(&LATER_CODES, code)
}
