// The edition with named variables: conversion into document 01's words and back.
#![tactic(auto)]

pub mod convert;
pub mod edition;
pub mod scope;
