// A sender's plan in lent octets: PLAN, and its body, which the image of a sender has too. Internal to the exports: a call that reads or
// writes asks that the octets are there.
#![tactic(auto)]

ghost use Rattle.std.specs.Prelude.{◌≡◌, ◌+◌, ◌≤◌, length, drop};
ghost use Rattle.std.specs.Bool.{then_some};
ghost use Rattle.std.proofs.lemmas.List.Edits.{sets};
ghost use Rattle.segmentation.specs.Frozen.{no_head};
ghost use Rattle.plan_image.specs.Row.{row_image, row_of, RowFits};
ghost use Rattle.plan_image.specs.Planned.{capacities, planned_image, planned_from, planned_of, PlannedFits};
ghost use Rattle.plan_image.specs.Frozen.{front_row, front_image, front_from, front_of, front_ok, FrontFits, front_in, heads_image, heads_of, heads_ok, HeadsFit, frozen_image, frozen_of, frozen_ok, FrozenFits};
ghost use Rattle.plan_image.specs.Plans.{no_planned, form_number, planned_in, form_image, form_from, form_of, form_ok, FormFits, body_image, body_of, body_ok, PlanFits, plan_image, plan_of, plan_ok};

use image::cases::window_of;
use image::numbers;
use image::segments::{HEAD_OCTETS, get_head, put_head, read_head};
use segmentation::{FrozenMessage, SegmentedMessage};
use sender::{Plan, PlanForm};
use tsar::{AcknowledgmentWindow, Segment, SegmentHead, SegmentKind};

// The octets of a plan, and of a plan without the version of the layout.
pub const PLAN_OCTETS: usize = 5958;

pub const BODY_OCTETS: usize = 5957;

// The version of the layout.
const LAYOUT_VERSION: u8 = 1;

const MAX_SEGMENTS: usize = 256;

const FORM_OCTETS: usize = 44;

const FRONT_OCTETS: usize = 25;

// Three numbers and an octet.
#[derive(Clone, Copy)]
pub struct Row {
    pub first: u64,
    pub second: u64,
    pub third: u64,
    pub octet: u8,
}

// What the record of the frozen check has beside its heads.
#[derive(Clone, Copy)]
pub struct Front {
    pub count: usize,
    pub message_octets: usize,
    pub payload_budget_octets: usize,
    pub acknowledgment_window: AcknowledgmentWindow,
}

fn put_row(dst: &mut [u8], at: usize, r: Row)
    requires { at + 25 ≤ length dst.old }
    ensures { (dst.new ≡ sets dst.old at (row_image r)) × RowFits r }
{
    numbers::put(dst, at, r.first);
    numbers::put(dst, at + 8, r.second);
    numbers::put(dst, at + 16, r.third);
    octets::put(dst, at + 24, &[r.octet]);
}

// The row that stands at a place.
fn read_row(l: &[u8], at: usize) -> Row
    requires { at + 25 ≤ length l.now }
    ensures { result ≡ row_of (drop at l.now) }
{
    Row {
        first: numbers::read(l, at),
        second: numbers::read(l, at + 8),
        third: numbers::read(l, at + 16),
        octet: l[at + 24],
    }
}

// The record of a planner.

fn capacities(p: SegmentedMessage) -> Row
    ensures { result ≡ capacities p }
{
    Row {
        first: p.begin_octets as u64,
        second: p.later_capacity as u64,
        third: p.count as u64,
        octet: u8::from(p.states_length),
    }
}

fn put_planned(dst: &mut [u8], at: usize, p: SegmentedMessage)
    requires { at + 43 ≤ length dst.old }
    ensures { (dst.new ≡ sets dst.old at (planned_image p)) × PlannedFits p }
{
    let octets = [p.transaction_id, u8::from(p.acknowledgment_window)];
    numbers::put(dst, at, p.message_octets as u64);
    numbers::put(dst, at + 8, p.payload_budget_octets as u64);
    octets::put(dst, at + 16, &octets);
    put_row(dst, at + 18, capacities(p));
}

fn planned_from(octets: u64, budget: u64, transaction: u8, window: u8, r: Row) -> SegmentedMessage
    ensures { result ≡ planned_from octets budget transaction window r }
{
    SegmentedMessage {
        message_octets: octets as usize,
        payload_budget_octets: budget as usize,
        transaction_id: transaction,
        acknowledgment_window: window_of(window),
        begin_octets: r.first as usize,
        later_capacity: r.second as usize,
        count: r.third as usize,
        states_length: r.octet == 1,
    }
}

// The record of a planner that stands at a place.
fn read_planned(l: &[u8], at: usize) -> SegmentedMessage
    requires { at + 43 ≤ length l.now }
    ensures { result ≡ planned_of (drop at l.now) }
{
    planned_from(
        numbers::read(l, at),
        numbers::read(l, at + 8),
        l[at + 16],
        l[at + 17],
        read_row(l, at + 18),
    )
}

// The form.

// The numbers are the layout's (the C interface), and an impl of From for a type of another crate cannot stand here.
fn form_number(form: PlanForm) -> u8
    ensures { result ≡ form_number form }
{
    match form {
        PlanForm::Planned(_) => 0,
        PlanForm::Frozen => 1,
    }
}

fn planned_in(form: PlanForm) -> SegmentedMessage
    ensures { result ≡ planned_in form }
{
    match form {
        PlanForm::Planned(p) => p,
        PlanForm::Frozen => SegmentedMessage {
            message_octets: 0,
            payload_budget_octets: 0,
            transaction_id: 0,
            acknowledgment_window: AcknowledgmentWindow::Prohibited,
            begin_octets: 0,
            later_capacity: 0,
            count: 0,
            states_length: false,
        },
    }
}

fn put_form(dst: &mut [u8], at: usize, form: PlanForm)
    requires { at + 44 ≤ length dst.old }
    ensures { (dst.new ≡ sets dst.old at (form_image form)) × FormFits form }
{
    octets::put(dst, at, &[form_number(form)]);
    put_planned(dst, at + 1, planned_in(form));
}

fn form_from(n: u8, p: SegmentedMessage) -> PlanForm
    ensures { result ≡ form_from n p }
{
    match n {
        0 => PlanForm::Planned(p),
        _ => PlanForm::Frozen,
    }
}

#[tactic(auto, unfolding(crate::specs::Plans::form_of))]
fn read_form(l: &[u8]) -> PlanForm
    requires { 44 ≤ length l.now }
    ensures { result ≡ form_of l.now }
{
    form_from(l[0], read_planned(l, 1))
}

fn get_form(l: &[u8]) -> Option<PlanForm>
    requires { 44 ≤ length l.now }
    ensures { result ≡ then_some (form_ok l.now) (form_of l.now) }
{
    let form = read_form(l);
    let mut again = [0u8; FORM_OCTETS];
    put_form(&mut again, 0, form);
    octets::same(&again, &l[..FORM_OCTETS]).then_some(form)
}

// What stands before the heads.

impl From<Front> for Row {
    ghost from_gives = { λ f r. r ≡ front_row f };

    fn from(f: Front) -> Row {
        Row {
            first: f.count as u64,
            second: f.message_octets as u64,
            third: f.payload_budget_octets as u64,
            octet: u8::from(f.acknowledgment_window),
        }
    }
}

impl From<Row> for Front {
    ghost from_gives = { λ r f. f ≡ front_from r };

    fn from(r: Row) -> Front {
        Front {
            count: r.first as usize,
            message_octets: r.second as usize,
            payload_budget_octets: r.third as usize,
            acknowledgment_window: window_of(r.octet),
        }
    }
}

impl From<FrozenMessage> for Front {
    ghost from_gives = { λ m f. f ≡ front_in m };

    fn from(m: FrozenMessage) -> Front {
        Front {
            count: m.count,
            message_octets: m.message_octets,
            payload_budget_octets: m.payload_budget_octets,
            acknowledgment_window: m.acknowledgment_window,
        }
    }
}

fn put_front(dst: &mut [u8], at: usize, f: Front)
    requires { at + 25 ≤ length dst.old }
    ensures { (dst.new ≡ sets dst.old at (front_image f)) × FrontFits f }
{
    put_row(dst, at, Row::from(f));
}

#[tactic(auto, unfolding(crate::specs::Frozen::front_of))]
fn read_front(l: &[u8]) -> Front
    requires { 25 ≤ length l.now }
    ensures { result ≡ front_of l.now }
{
    Front::from(read_row(l, 0))
}

fn get_front(l: &[u8]) -> Option<Front>
    requires { 25 ≤ length l.now }
    ensures { result ≡ then_some (front_ok l.now) (front_of l.now) }
{
    let front = read_front(l);
    let mut again = [0u8; FRONT_OCTETS];
    put_front(&mut again, 0, front);
    octets::same(&again, &l[..FRONT_OCTETS]).then_some(front)
}

// The heads.

fn no_head() -> SegmentHead
    ensures { result ≡ no_head }
{
    SegmentHead {
        segment: Segment {
            transaction_id: 0,
            sequence_number: 0,
            kind: SegmentKind::Begin {
                message_length: None,
                services: None,
            },
        },
        segment_data_length: 0,
    }
}

fn put_heads(dst: &mut [u8], at: usize, heads: [SegmentHead; 256])
    requires { at + 5888 ≤ length dst.old }
    ensures { (dst.new ≡ sets dst.old at (heads_image heads)) × HeadsFit heads }
{
    for (i, head) in heads.iter().enumerate() {
        put_head(dst, at + HEAD_OCTETS * i, *head);
    }
}

// The 256 heads that octets spell.
pub fn read_heads(l: &[u8]) -> [SegmentHead; 256]
    requires { 5888 ≤ length l.now }
    ensures { result ≡ heads_of l.now }
{
    let mut heads = [no_head(); MAX_SEGMENTS];
    for (i, head) in heads.iter_mut().enumerate() {
        *head = read_head(&l[HEAD_OCTETS * i..]);
    }
    heads
}

// The same, where the octets are those of the heads.
pub fn get_heads(l: &[u8]) -> Option<[SegmentHead; 256]>
    requires { 5888 ≤ length l.now }
    ensures { result ≡ then_some (heads_ok l.now) (heads_of l.now) }
{
    let mut heads = [no_head(); MAX_SEGMENTS];
    for (i, head) in heads.iter_mut().enumerate() {
        *head = get_head(&l[HEAD_OCTETS * i..])?;
    }
    Some(heads)
}

// The record of the frozen check.

fn put_frozen(dst: &mut [u8], at: usize, f: FrozenMessage)
    requires { at + 5913 ≤ length dst.old }
    ensures { (dst.new ≡ sets dst.old at (frozen_image f)) × FrozenFits f }
{
    put_front(dst, at, Front::from(f));
    put_heads(dst, at + FRONT_OCTETS, f.heads);
}

fn read_frozen(l: &[u8]) -> FrozenMessage
    requires { 5913 ≤ length l.now }
    ensures { result ≡ frozen_of l.now }
{
    let front = read_front(l);
    FrozenMessage {
        heads: read_heads(&l[FRONT_OCTETS..]),
        count: front.count,
        message_octets: front.message_octets,
        payload_budget_octets: front.payload_budget_octets,
        acknowledgment_window: front.acknowledgment_window,
    }
}

fn get_frozen(l: &[u8]) -> Option<FrozenMessage>
    requires { 5913 ≤ length l.now }
    ensures { result ≡ then_some (frozen_ok l.now) (frozen_of l.now) }
{
    let front = get_front(l)?;
    let heads = get_heads(&l[FRONT_OCTETS..])?;
    Some(FrozenMessage {
        heads,
        count: front.count,
        message_octets: front.message_octets,
        payload_budget_octets: front.payload_budget_octets,
        acknowledgment_window: front.acknowledgment_window,
    })
}

// The plan without the version of the layout, put at a place.
pub fn put_body(dst: &mut [u8], at: usize, plan: Plan)
    requires { at + 5957 ≤ length dst.old }
    ensures { (dst.new ≡ sets dst.old at (body_image plan)) × PlanFits plan }
{
    put_form(dst, at, plan.form);
    put_frozen(dst, at + FORM_OCTETS, plan.frozen);
}

// The plan whose body octets spell.
pub fn read_body(l: &[u8]) -> Plan
    requires { 5957 ≤ length l.now }
    ensures { result ≡ body_of l.now }
{
    Plan {
        form: read_form(l),
        frozen: read_frozen(&l[FORM_OCTETS..]),
    }
}

// The same, where the octets are those of the body.
pub fn get_body(l: &[u8]) -> Option<Plan>
    requires { 5957 ≤ length l.now }
    ensures { result ≡ then_some (body_ok l.now) (body_of l.now) }
{
    let form = get_form(l)?;
    let frozen = get_frozen(&l[FORM_OCTETS..])?;
    Some(Plan { form, frozen })
}

// A plan put at the front of octets.
pub fn put_plan(dst: &mut [u8], plan: Plan)
    requires { 5958 ≤ length dst.old }
    ensures { (dst.new ≡ sets dst.old 0 (plan_image plan)) × PlanFits plan }
{
    octets::put(dst, 0, &[LAYOUT_VERSION]);
    put_body(dst, 1, plan);
}

// The plan that octets spell, of whatever version their layout is.
#[tactic(auto, unfolding(crate::specs::Plans::plan_of), using(image::specs::Spelling::rest_of))]
pub fn read_plan(l: &[u8]) -> Plan
    requires { 5958 ≤ length l.now }
    ensures { result ≡ plan_of l.now }
{
    read_body(&l[1..])
}

// The same, where the octets are those of the plan.
pub fn get_plan(l: &[u8]) -> Option<Plan>
    requires { 5958 ≤ length l.now }
    ensures { result ≡ then_some (plan_ok l.now) (plan_of l.now) }
{
    if l[0] != LAYOUT_VERSION {
        return None;
    }
    get_body(&l[1..])
}
