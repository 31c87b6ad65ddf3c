// Which row of the table a request is.
ghost use Rattle.std.specs.Prelude.{◌≡◌, IfOk};
ghost use Rattle.fh_front.specs.Routes.{table, page_of, action_of};

use crate::fault::FrontFault;
use crate::page::{Action, Page};
use fh_base::{NoMemory, utf8_text};
use matchit::{InsertError, Router};
use std::alloc::Global;

/// The paths of the table, in a router.
#[derive(Drop)]
pub struct Routes {
    router: Router<Page>,
    ghost full: { router ≡ table },
}

impl Routes {
    /// Fills the router. Want of memory is its only fault.
    pub fn new(alloc: Global) -> Result<Routes, NoMemory> {
        match filled(alloc) {
            Ok(router) => Ok(Routes { router }),
            Err(_) => Err(NoMemory),
        }
    }

    /// The page that a path names.
    #[tactic(auto, unfolding(crate::specs::Routes::page_of))]
    pub(crate) fn page_of(&self, path: &[u8]) -> Result<Page, FrontFault>
        ensures { result ≡ page_of path.now }
    {
        let Some(path) = utf8_text(path) else {
            return Err(FrontFault::NoRoute);
        };
        match self.router.at(path) {
            Ok(found) => Ok(*found.value),
            Err(_) => Err(FrontFault::NoRoute),
        }
    }
}

fn filled(alloc: Global) -> Result<Router<Page>, InsertError>
    ensures { IfOk result (λ router. router ≡ table) }
{
    let mut router = Router::new(alloc);
    router.insert("/queues/{queue}", Page::Queue)?;
    router.insert("/queues/{queue}/messages", Page::Messages)?;
    router.insert("/queues/{queue}/peek", Page::Peek)?;
    router.insert("/queues/{queue}/messages/{id}", Page::Message)?;
    router.insert("/blobs/{container}/{*name}", Page::Blob)?;
    router.insert("/leases/{name}/acquire", Page::Acquire)?;
    router.insert("/leases/{name}/renew", Page::Renew)?;
    router.insert("/leases/{name}/release", Page::Release)?;
    router.insert("/where/{id}", Page::Place)?;
    router.insert("/admin/stop", Page::Stop)?;
    Ok(router)
}

/// What a method asks of a page.
#[tactic(auto, unfolding(crate::specs::Routes::action_of))]
pub(crate) fn action_of(page: Page, method: &str) -> Result<Action, FrontFault>
    ensures { result ≡ action_of page method.now }
{
    let is_put = method == "PUT";
    let is_get = method == "GET";
    let is_post = method == "POST";
    let is_delete = method == "DELETE";
    match page {
        Page::Queue if is_put => Ok(Action::MakeQueue),
        Page::Messages if is_post => Ok(Action::Put),
        Page::Messages if is_get => Ok(Action::Take),
        Page::Messages if is_delete => Ok(Action::Clear),
        Page::Peek if is_get => Ok(Action::Peek),
        Page::Message if is_put => Ok(Action::Update),
        Page::Message if is_delete => Ok(Action::Delete),
        Page::Blob if is_put => Ok(Action::PutBlob),
        Page::Blob if is_get => Ok(Action::GetBlob),
        Page::Blob if is_delete => Ok(Action::DeleteBlob),
        Page::Acquire if is_post => Ok(Action::Acquire),
        Page::Renew if is_post => Ok(Action::RenewLease),
        Page::Release if is_post => Ok(Action::ReleaseLease),
        Page::Place if is_get => Ok(Action::Locate),
        Page::Stop if is_post => Ok(Action::Stop),
        _ => Err(FrontFault::BadMethod),
    }
}
