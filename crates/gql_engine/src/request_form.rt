//! What a request asks: the members of its JSON object, each of the kind that it must have.

ghost use Rattle.std.specs.Prelude.{◌≡◌, Some, None, IfOk, MatchResult};
ghost use Rattle.jb_tree.specs.Value.{object_members, string_text, truth_value};
ghost use Rattle.std.specs.Option.{option_copied};
ghost use Rattle.gql_engine.specs.declared.request_form.RequestFault.TheVariants.{WrongKind};
ghost use Rattle.gql_engine.specs.Request.{asked, asked_by_members, asked_in, member_name, required, optional, member_given as given_member, response_in, fault_message, HasForm, IsAsked, IsResponseOf};
ghost use Rattle.gql_engine.specs.bridge.Request.{IsFound, IsFoundSome};

use jb_tree::{Map, Memory, Text, Value};
use std::alloc::Global;

/// The members of a request, in the order in which they are checked.
#[derive(Clone, Copy, Debug, PartialEq, Eq)]
pub enum Member {
    Schema,
    Query,
    OperationName,
    Variables,
    Introspection,
    Data,
    Response,
}

impl Member {
    /// The member's name in a request.
    pub fn name(self) -> &'static str
        ensures { result.now ≡ member_name self }
    {
        match self {
            Member::Schema => "schema",
            Member::Query => "query",
            Member::OperationName => "operationName",
            Member::Variables => "variables",
            Member::Introspection => "introspection",
            Member::Data => "data",
            Member::Response => "response",
        }
    }
}

/// Which members a request must have.
#[derive(Clone, Copy, Debug, PartialEq, Eq)]
pub enum RequestForm {
    /// The texts of schema and query.
    Plain,
    /// These, and the text of a response to the request.
    WithResponse,
}

/// Why a JSON value is no request.
#[derive(Clone, Copy, Debug, PartialEq, Eq)]
pub enum RequestFault {
    /// It is no object.
    NotObject,
    /// It lacks a member that it must have.
    Missing(Member),
    /// A member has another kind than it must have.
    WrongKind(Member),
}

impl RequestFault {
    /// The text of the refusal. `Err` only when out of memory.
    pub fn message(self, alloc: Global) -> Result<Text, Memory>
        ensures { IfOk result (λ text. text ≡ fault_message self) }
    {
        match self {
            RequestFault::NotObject => Text::from_str(alloc, "request: not an object"),
            RequestFault::Missing(member) => {
                let name = member.name();
                let text = format!(in alloc; "request: member `{name}` is missing")?;
                Ok(Text::from_string(text))
            }
            RequestFault::WrongKind(member) => {
                let name = member.name();
                let text = format!(in alloc; "request: member `{name}` has a wrong kind")?;
                Ok(Text::from_string(text))
            }
        }
    }
}

/// A request: the texts of schema and query, and what it gives besides. Other members are ignored. The text of a response is there
/// exactly where the form of the request has one.
#[derive(Clone, Copy)]
pub struct Request<'v> {
    pub schema: &'v str,
    pub query: &'v str,
    pub operation_name: Option<&'v str>,
    pub variables: Option<&'v Map>,
    pub introspection: bool,
    pub root: Option<&'v Map>,
    pub response: Option<&'v str>,
}

/// The request of this form that a JSON value is.
///
/// # Errors
///
/// The first fault: that it is no object, else the first member, in the order of [`Member`], that is missing or has
/// a wrong kind. Only schema and query, and the response where the form has one, must be there; each other may be absent or null.
pub fn decode(value: &Value, form: RequestForm) -> Result<Request<'_>, RequestFault>
    ensures is { IsAsked result (asked form value.now) }
    ensures form { IfOk result (λ request. HasForm form (asked_in request)) }
{
    match value.as_object() {
        Some(members) => decode_members(members, form),
        None => Err(RequestFault::NotObject),
    }
}

fn decode_members(members: &Map, form: RequestForm) -> Result<Request<'_>, RequestFault>
    ensures is { IsAsked result (asked_by_members form members.now) }
    ensures form { IfOk result (λ request. HasForm form (asked_in request)) }
{
    let schema = required_text(members, Member::Schema)?;
    let query = required_text(members, Member::Query)?;
    let operation_name = optional_text(members, Member::OperationName)?;
    let variables = optional_object(members, Member::Variables)?;
    let introspection = optional_truth(members, Member::Introspection)?;
    let root = optional_object(members, Member::Data)?;
    let response = response_text(members, form)?;
    Ok(Request {
        schema,
        query,
        operation_name,
        variables,
        introspection: introspection.unwrap_or(false),
        root,
        response,
    })
}

/// The text of the response, where the form has one.
fn response_text(members: &Map, form: RequestForm) -> Result<Option<&str>, RequestFault>
    ensures is { IsFoundSome result (response_in form members.now) }
    ensures form { IfOk result (λ response. IsResponseOf form (option_copied response)) }
{
    match form {
        RequestForm::Plain => Ok(None),
        RequestForm::WithResponse => Ok(Some(required_text(members, Member::Response)?)),
    }
}

fn required_text(members: &Map, member: Member) -> Result<&str, RequestFault>
    ensures { IsFound result (required string_text member members.now) }
{
    match members.get(member.name()) {
        Some(value) => of_kind(member, value.as_str()),
        None => Err(RequestFault::Missing(member)),
    }
}

/// A member that is there and isn't null.
fn member_given(members: &Map, member: Member) -> Option<&Value>
    ensures { option_copied result ≡ given_member member members.now }
{
    match members.get(member.name()) {
        Some(value) if !value.is_null() => Some(value),
        _ => None,
    }
}

fn optional_text(members: &Map, member: Member) -> Result<Option<&str>, RequestFault>
    ensures { IsFoundSome result (optional string_text member members.now) }
{
    match member_given(members, member) {
        Some(value) => Ok(Some(of_kind(member, value.as_str())?)),
        None => Ok(None),
    }
}

fn optional_object(members: &Map, member: Member) -> Result<Option<&Map>, RequestFault>
    ensures { IsFoundSome result (optional object_members member members.now) }
{
    match member_given(members, member) {
        Some(value) => Ok(Some(of_kind(member, value.as_object())?)),
        None => Ok(None),
    }
}

fn optional_truth(members: &Map, member: Member) -> Result<Option<bool>, RequestFault>
    ensures { result ≡ optional truth_value member members.now }
{
    match member_given(members, member) {
        Some(value) => Ok(Some(of_kind(member, value.as_bool())?)),
        None => Ok(None),
    }
}

/// What was found of a member's value, where that has the kind that the member must have.
fn of_kind<T>(member: Member, found: Option<T>) -> Result<T, RequestFault>
    ensures { MatchResult result (λ part. found ≡ Some part) (λ fault. (found ≡ None) × (fault ≡ WrongKind member)) }
{
    found.ok_or(RequestFault::WrongKind(member))
}
